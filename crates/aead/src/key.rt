ghost use Rattle.std.specs.Prelude.{◌≡◌};
ghost use Rattle.aead.specs.Keys.{size_bytes, key_size, wiped, key_bytes};

use error::cipher::CipherError;

/// The bytes of key memory that a key in use lies in.
pub const KEY_MEMORY: usize = 32;

/// The lengths that a key may have.
#[derive(Clone, Copy, PartialEq, Eq, Debug)]
pub enum KeySize {
    Bits128,
    Bits192,
    Bits256,
}

impl KeySize {
    /// The size of a key of `length` bytes in `memory` bytes of key memory: refused where the key has another length
    /// than 16, 24 or 32, and then where the memory is under 32.
    pub fn of(length: usize, memory: usize) -> Result<KeySize, CipherError>
        ensures { result ≡ key_size length memory }
    {
        match length {
            16 | 24 | 32 if memory < KEY_MEMORY => Err(CipherError::MemoryTooSmall),
            16 => Ok(KeySize::Bits128),
            24 => Ok(KeySize::Bits192),
            32 => Ok(KeySize::Bits256),
            _ => Err(CipherError::KeyLength),
        }
    }

    /// The key's length in bytes.
    pub fn bytes(self) -> usize
        ensures { result ≡ size_bytes self }
    {
        match self {
            KeySize::Bits128 => 16,
            KeySize::Bits192 => 24,
            KeySize::Bits256 => 32,
        }
    }
}

/// A key in use: a guard over key memory that the caller handed in. When it ends, on every way out, the first 32 bytes of that
/// memory are zero.
pub struct SecureKey<'m> {
    mem: &'m mut [u8],
    size: KeySize,
}

impl Drop for SecureKey<'_> {
    fn drop(self)
        ensures { self.exit.0.now ≡ wiped self.entry.mem.now }
    {
        let SecureKey { mem, size: _ } = self;
        wipe(mem);
    }
}

/// Writes zeros over the first 32 bytes of key memory, or over all of it where it has fewer.
pub fn wipe(mem: &mut [u8])
    ensures { mem.new ≡ wiped mem.old }
{
    let n = mem.len().min(KEY_MEMORY);
    mem[..n].fill(0);
}

impl<'m> SecureKey<'m> {
    /// The key of that size at the front of `mem`.
    pub fn new(mem: &'m mut [u8], size: KeySize) -> SecureKey<'m>
        ensures size { result.size ≡ size }
        ensures mem { result.mem.now ≡ mem.old }
        ensures lender { result.mem.ghost_name ≡ mem.entry.ghost_name }
    {
        SecureKey { mem, size }
    }

    /// The bytes of the key; of memory that is shorter than the key, what there is.
    pub fn bytes(&self) -> &[u8]
        ensures { result.now ≡ key_bytes self.now.size self.now.mem.now }
    {
        let n = self.size.bytes().min(self.mem.len());
        &self.mem[..n]
    }
}
