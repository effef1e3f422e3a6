ghost use Rattle.std.specs.Prelude.{◌≡◌, ℕ, List};
ghost use Rattle.storage.specs.Answers.{Answered};

use error::storage::StorageError;

/// Where the bytes of a file come from.
pub trait FileRead {
    ghost bytes: { Self → List ℕ };

    /// The bytes from `at` on, as many as `into` holds: the memory lent is the length of the range, so that it cannot be too
    /// small; a smaller one asks for less. Answered exactly where the range ends within the source. A refusal is
    /// `SourceRefused`, and leaves `into` as it was.
    fn read(&self, at: u64, into: &mut [u8]) -> Result<(), StorageError>
        ensures { Answered (bytes self.now) at into.old result into.new };
}

/// A source that is lent is a source.
impl<'a, R: FileRead> FileRead for &'a R {
    ghost bytes = { λ s. R.FileRead.bytes s.now };

    fn read(&self, at: u64, into: &mut [u8]) -> Result<(), StorageError> {
        (**self).read(at, into)
    }
}

/// Bytes that lie in a borrowed memory.
#[derive(Drop)]
pub struct MemorySource<'a> {
    memory: &'a [u8],
}

impl<'a> MemorySource<'a> {
    /// All of these bytes.
    pub fn new(memory: &'a [u8]) -> MemorySource<'a>
        ensures { result.memory.now ≡ memory.now }
    {
        MemorySource { memory }
    }
}

impl<'a> FileRead for MemorySource<'a> {
    ghost bytes = { λ s. s.memory.now };

    fn read(&self, at: u64, into: &mut [u8]) -> Result<(), StorageError> {
        copy_range(self.memory, at, into)
    }
}

/// Copies the bytes from `at` on, as many as `into` holds.
pub(crate) fn copy_range(memory: &[u8], at: u64, into: &mut [u8]) -> Result<(), StorageError>
    ensures { Answered memory.now at into.old result into.new }
{
    let rest = memory
        .get(at as usize..)
        .ok_or(StorageError::SourceRefused)?;
    let bytes = rest.get(..into.len()).ok_or(StorageError::SourceRefused)?;
    into.copy_from_slice(bytes);
    Ok(())
}
