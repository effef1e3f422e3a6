ghost use Rattle.std.specs.Prelude.{◌≡◌, ℕ};
ghost use Rattle.layout.specs.Spans.{located, Locates, plain_in, spanned, CoversIf, AadMade};

use crate::layout::FileLayout;
use crate::shape::Shape;
use crate::size::{BlockSize, HEADER_LENGTH};
use crate::spans::{BlockOffset, BlockSpan};
use arrayvec::ArrayVec;
use error::stream::StreamError;

/// The most bytes of an AAD prefix.
pub const MAX_AAD_PREFIX: usize = 64;
/// The most bytes of a block's AAD: a prefix and four of the block's number.
pub const MAX_AAD: usize = 68;

impl BlockSize {
    /// The block that holds the plaintext byte at `position`, and the byte's place in it.
    pub fn locate(self, position: u64) -> BlockOffset
        ensures value { result ≡ located self.bytes position }
        ensures law { Locates self.bytes position result }
    {
        let size = self.plaintext() as u64;
        BlockOffset {
            block: position / size,
            offset: (position % size) as u32,
        }
    }
}

impl FileLayout {
    // The plaintext bytes of block `number`, which the file has.
    fn plaintext_in(&self, number: u64) -> u32
        ensures { result ≡ plain_in self.now.size.bytes self.now.shape number }
    {
        match self.shape {
            Shape::Partial(full, last) if number >= full => last,
            Shape::Partial(_, _) | Shape::Full(_) => self.size.plaintext(),
        }
    }

    /// Where block `number` stands in the file, if the file has it.
    pub fn block(&self, number: u64) -> Option<BlockSpan>
        ensures value { result ≡ spanned self.now.size.bytes self.now.shape number }
        ensures law { CoversIf self.now.size.bytes self.now.shape number result }
    {
        if number >= self.block_count() {
            return None;
        }
        let start = HEADER_LENGTH + number * self.size.ciphertext();
        Some(BlockSpan {
            start,
            plaintext: self.plaintext_in(number),
        })
    }
}

/// The AAD of a block: the file's prefix, then the block's number.
pub fn block_aad(prefix: &[u8], block: u32) -> Result<ArrayVec<u8, MAX_AAD>, StreamError>
    ensures { AadMade prefix.now block result }
{
    if prefix.len() > MAX_AAD_PREFIX {
        return Err(StreamError::OutsideLimits);
    }
    let mut aad = ArrayVec::new();
    // There is room for both, so neither is refused.
    let _ = aad.try_extend_from_slice(prefix);
    let _ = aad.try_extend_from_slice(&block.to_le_bytes());
    Ok(aad)
}
