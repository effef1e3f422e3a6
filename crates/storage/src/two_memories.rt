ghost use Rattle.std.specs.Prelude.{◌≡◌, ◌+◌, ◌++◌, MatchResult, IfOk};
ghost use Rattle.error.specs.declared.storage.StorageError.TheVariants.{OutOfMemory};
ghost use Rattle.storage.specs.Answers.{Answered};
ghost use Rattle.storage.specs.Memories.{memory_port, two_port, two_bytes, ReadsTaken};
ghost use Rattle.storage.specs.Ports.{fresh};

use crate::memory::{MemoryFile, TwoMemories};
use crate::sink::FileWrite;
use crate::source::{FileRead, copy_range};
use error::storage::StorageError;
use std::alloc::Global;

impl TwoMemories {
    /// An empty, open file with room for `front` bytes in the first memory and `back` bytes in the second; refused where there is
    /// no memory for them.
    pub fn new(heap: Global, front: usize, back: usize) -> Result<TwoMemories, StorageError>
        ensures made { MatchResult result (λ m. two_port m ≡ fresh (front + back)) (λ e. e ≡ OutOfMemory) }
        ensures rooms { IfOk result (λ m. (memory_port m.first ≡ fresh front) × (memory_port m.second ≡ fresh back)) }
        ensures same { ReadsTaken two_port two_bytes }
    {
        let first = MemoryFile::new(heap, front)?;
        let second = MemoryFile::new(heap, back)?;
        Ok(TwoMemories { first, second })
    }
}

impl FileWrite for TwoMemories {
    ghost port = { two_port };

    fn write(&mut self, bytes: &[u8]) -> Result<(), StorageError> {
        let (front, back) = bytes.split_at(bytes.len().min(self.first.room));
        if !self.first.open || !self.second.open || back.len() > self.second.room {
            return Err(StorageError::BlockNotTaken);
        }
        self.first.write(front)?;
        self.second.write(back)
    }

    fn close(&mut self) {
        self.first.close();
        self.second.close();
    }
}

impl FileRead for TwoMemories {
    ghost bytes = { two_bytes };

    fn read(&self, at: u64, into: &mut [u8]) -> Result<(), StorageError> {
        copy_across(self.first.as_slice(), self.second.as_slice(), at, into)
    }
}

/// Bytes that lie in two borrowed memories in a row. Not one of two sources of any kind, since a source doesn't tell code its length.
#[derive(Drop)]
pub struct TwoMemorySource<'a> {
    front: &'a [u8],
    back: &'a [u8],
}

impl<'a> TwoMemorySource<'a> {
    /// All of the bytes of `front` and then all of `back`.
    pub fn new(front: &'a [u8], back: &'a [u8]) -> TwoMemorySource<'a>
        ensures { (result.front.now ≡ front.now) × (result.back.now ≡ back.now) }
    {
        TwoMemorySource { front, back }
    }
}

impl<'a> FileRead for TwoMemorySource<'a> {
    ghost bytes = { λ s. s.front.now ++ s.back.now };

    fn read(&self, at: u64, into: &mut [u8]) -> Result<(), StorageError> {
        copy_across(self.front, self.back, at, into)
    }
}

/// Copies the bytes from `at` on of two memories in a row, as many as `into` holds.
fn copy_across(front: &[u8], back: &[u8], at: u64, into: &mut [u8]) -> Result<(), StorageError>
    ensures { Answered (front.now ++ back.now) at into.old result into.new }
{
    // Where the range begins in each, and how much of it the first has.
    let skip = at.saturating_sub(front.len() as u64);
    let front = &front[(at as usize).min(front.len())..];
    let head = into.len().min(front.len());
    // The second memory comes first, since it alone may refuse.
    copy_range(back, skip, &mut into[head..])?;
    into[..head].copy_from_slice(&front[..head]);
    Ok(())
}
