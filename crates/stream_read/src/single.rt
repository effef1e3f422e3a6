ghost use Rattle.layout.specs.Format.{block_count_of};
ghost use Rattle.aead.specs.Seals.{sealing};
ghost use Rattle.stream_read.specs.Readers.{size_of, plain_of};
ghost use Rattle.stream_read.specs.Singles.{BlockOpened};

use crate::reader::AesGcmFileRead;
use aead::aead::{Aead, KeyedCipher};
use error::stream::{StreamError, at_block};
use layout::places::block_aad;
use sealed_text::frame::OVERHEAD;
use sealed_text::open::open_text;

impl AesGcmFileRead {
    /// Opens block `number`, whose bytes the caller fetched itself, into the front of `out`, and answers the plaintext's length.
    ///
    /// `RangePastEnd` where the file has no such block, then `CiphertextTooShort` where `sealed` has another length than the block takes,
    /// then `MemoryTooSmall` where `out` is shorter than its plaintext, then `Cipher` with the block's number where no plaintext seals to
    /// these bytes. A refusal leaves `out` as it was; else what stands behind the plaintext stays as it was.
    pub fn open_block<A: Aead>(
        &self,
        number: u64,
        sealed: &[u8],
        out: &mut [u8],
        keyed: &KeyedCipher<'_, A>,
    ) -> Result<usize, StreamError>
        ensures { BlockOpened (sealing A.sealed keyed.now) self.now.prefix.items (size_of self.now) (plain_of self.now) (block_count_of self.now.layout.shape) number sealed.now out.old result out.new }
    {
        let span = self.layout.block(number).ok_or(StreamError::RangePastEnd)?;
        let n = span.plaintext as usize;
        if sealed.len() != n + OVERHEAD {
            return Err(StreamError::CiphertextTooShort);
        }
        if out.len() < n {
            return Err(StreamError::MemoryTooSmall);
        }
        let i = number as u32;
        let aad = block_aad(&self.prefix, i)?;
        let length = at_block(open_text(keyed, &aad, sealed, out), i)?;
        Ok(length)
    }
}
