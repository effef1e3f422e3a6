ghost use Rattle.std.specs.Prelude.{◌≡◌, ◌+◌, Some, length};
ghost use Rattle.code.specs.Texts.{report_text};
ghost use Rattle.error.specs.Reports.{stream_report};
ghost use Rattle.stream_write.specs.Calls.{size_of};
ghost use Rattle.stream_write.specs.Makes.{Made, SizeFor, wiped};

use crate::phase::Phase;
use crate::writer::AesGcmFileWrite;
use error::stream::StreamError;
use layout::places::MAX_AAD_PREFIX;
use layout::size::BlockSize;
use std::error::Error;
use std::fmt;

/// A writer that was not made: why, and what was handed in.
#[derive(Debug, Drop)]
pub struct NotMade {
    pub error: StreamError,
    pub prefix: Vec<u8>,
    pub block: Vec<u8>,
}

impl fmt::Display for NotMade {
    ghost output = { λ e. Some (report_text (stream_report e.error)) };

    fn fmt<W: fmt::Write>(&self, f: &mut fmt::Formatter<W>) -> fmt::Result {
        self.error.fmt(f)
    }
}

impl Error for NotMade {}

// The block size of a writer with this prefix and this buffer, or why there is none.
fn size_for(block_size: u32, prefix: &[u8], block: &[u8]) -> Result<BlockSize, StreamError>
    ensures { SizeFor block_size (length prefix.now) (length block.now) result }
{
    let size = BlockSize::new(block_size)?;
    if (block.len() as u64) < size.ciphertext() {
        return Err(StreamError::MemoryTooSmall);
    }
    if prefix.len() > MAX_AAD_PREFIX {
        return Err(StreamError::OutsideLimits);
    }
    Ok(size)
}

impl AesGcmFileWrite {
    /// A fresh writer of blocks of `block_size` plaintext bytes, with an AAD prefix and a block buffer. Refused where the block
    /// size is outside its limits (4), where the buffer has fewer than `block_size + 28` bytes (7), and where the prefix has more
    /// than 64 (24); prefix and buffer are then given back as they were.
    pub fn new(block_size: u32, prefix: Vec<u8>, block: Vec<u8>) -> Result<AesGcmFileWrite, NotMade>
        ensures { Made block_size prefix block result }
    {
        // A `match`, since both arms take prefix and buffer.
        match size_for(block_size, &prefix, &block) {
            Ok(size) => Ok(AesGcmFileWrite {
                block,
                prefix,
                size,
                phase: Phase::Fresh,
            }),
            Err(error) => Err(NotMade {
                error,
                prefix,
                block,
            }),
        }
    }

    /// Ends the writer and gives its buffer back: the first `block_size + 28` bytes are zero, the rest is as it was handed in.
    pub fn end(self) -> Vec<u8>
        ensures { result.items ≡ wiped (size_of self + 28) self.block.items }
    {
        let AesGcmFileWrite {
            mut block,
            prefix: _,
            size,
            phase: _,
        } = self;
        let c = size.ciphertext() as usize;
        // With `[..c]` a proof knows nothing of what a write leaves in a `Vec`.
        block[0..c].fill(0);
        block
    }
}
