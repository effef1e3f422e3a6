ghost use Rattle.std.specs.Prelude.{◌≡◌, ℕ, ◌+◌};
ghost use Rattle.layout.specs.Format.{header};
ghost use Rattle.layout.specs.Made.{Sized};

use crate::size::{BLOCK_OVERHEAD, BlockSize, MAX_BLOCK_SIZE};
use error::stream::StreamError;

impl BlockSize {
    /// A block size of so many plaintext bytes.
    pub fn new(bytes: u32) -> Result<BlockSize, StreamError>
        ensures { Sized bytes result }
    {
        if bytes == 0 || bytes > MAX_BLOCK_SIZE {
            return Err(StreamError::BlockSize);
        }
        Ok(BlockSize { bytes })
    }

    /// The plaintext bytes of a full block.
    pub fn plaintext(self) -> u32
        ensures { result ≡ self.bytes }
    {
        self.bytes
    }

    /// The bytes that a full block takes in the file.
    pub fn ciphertext(self) -> u64
        ensures { result ≡ self.bytes + 28 }
    {
        self.plaintext() as u64 + BLOCK_OVERHEAD
    }

    /// The eight bytes that a file of this block size begins with.
    pub fn header(self) -> [u8; 8]
        ensures { result ≡ header self.bytes }
    {
        let [b0, b1, b2, b3] = self.plaintext().to_le_bytes();
        [0x41, 0x47, 0x53, 0x31, b0, b1, b2, b3]
    }
}
