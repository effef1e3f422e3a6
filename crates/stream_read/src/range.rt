ghost use Rattle.std.specs.Prelude.{◌≡◌, ◌+◌, ◌-◌, ◌<◌, ◌≤◌, length, replicate};
ghost use Rattle.aead.specs.Seals.{sealing};
ghost use Rattle.stream_read.specs.Fetches.{OpensIn, FailsIn};
ghost use Rattle.stream_read.specs.Ranges.{Filled, Got, GotAll, Reads};
ghost use Rattle.stream_read.specs.Readers.{size_of, plain_of};

use crate::block::Blocks;
use crate::reader::AesGcmFileRead;
use aead::aead::{Aead, KeyedCipher};
use error::stream::StreamError;
use std::ops::Range;
use storage::source::FileRead;

impl<R: FileRead, A: Aead> Blocks<'_, R, A> {
    // The plaintext from `pos` on that lies in one block, as far as `out` has room, into the front of `out`: how many bytes.
    fn fill_some(&self, pos: u64, out: &mut [u8], block: &mut [u8]) -> Result<usize, StreamError>
        requires some { 0 < length out.old }
        requires within { pos + length out.old ≤ plain_of self.now.reader.now }
        requires room { size_of self.now.reader.now + 28 ≤ length block.old }
        ensures { Filled (OpensIn A.sealed R.bytes self.now) (FailsIn A.sealed R.bytes self.now) (size_of self.now.reader.now) pos (pos + length out.old) result out.new }
    {
        let place = self.reader.layout.block_size().locate(pos);
        let text = self.fetch(place.block, block)?;
        let rest = &text[place.offset as usize..];
        let k = rest.len().min(out.len());
        out[..k].copy_from_slice(&rest[..k]);
        Ok(k)
    }

    // The plaintext from `start` on into all of `out`.
    fn fill(&self, start: u64, out: &mut [u8], block: &mut [u8]) -> Result<(), StreamError>
        requires within { start + length out.old ≤ plain_of self.now.reader.now }
        requires room { size_of self.now.reader.now + 28 ≤ length block.old }
        ensures { Got (OpensIn A.sealed R.bytes self.now) (FailsIn A.sealed R.bytes self.now) (size_of self.now.reader.now) start (start + length out.old) result out.new }
    {
        // By an index: after a loop that shrinks a `&mut`, a proof knows nothing of the memory as a whole.
        let mut filled = 0;
        while filled < out.len() {
            filled += self.fill_some(start + filled as u64, &mut out[filled..], block)?;
        }
        Ok(())
    }

    // The same, and `block` is wiped, and after a refusal `out` too.
    fn read_exact(&self, start: u64, out: &mut [u8], block: &mut [u8]) -> Result<(), StreamError>
        requires within { start + length out.old ≤ plain_of self.now.reader.now }
        requires room { size_of self.now.reader.now + 28 ≤ length block.old }
        ensures got { GotAll (OpensIn A.sealed R.bytes self.now) (FailsIn A.sealed R.bytes self.now) (size_of self.now.reader.now) start (start + length out.old) result out.new }
        ensures wiped { block.new ≡ replicate (length block.old) 0 }
    {
        let filled = self.fill(start, out, block);
        block.fill(0);
        if filled.is_err() {
            out.fill(0);
        }
        filled
    }
}

impl AesGcmFileRead {
    /// The plaintext of the range into the front of `out`, one block at a time through `block`.
    ///
    /// Where the range starts at its end there is nothing to read, whatever else holds. Else `RangeReversed` where it starts past its
    /// end, then `RangePastEnd` where it ends past the plaintext, then `MemoryTooSmall` where `out` is shorter than the range or `block`
    /// than the block size and 28 bytes; these leave all memory as it was. Then each block that the range meets is fetched and opened,
    /// and the first that the source does not answer or that no plaintext seals to is refused, as `Storage` or `Cipher` with its number;
    /// such a refusal leaves as many zeros at the front of `out` as the range has bytes. The rest of `out` stays as it was. Once blocks
    /// are fetched, `block` begins with as many zeros as a full block takes, and the rest of it is as it was.
    pub fn read<R: FileRead, A: Aead>(
        &self,
        range: Range<u64>,
        out: &mut [u8],
        block: &mut [u8],
        keyed: &KeyedCipher<'_, A>,
        source: &R,
    ) -> Result<(), StreamError>
        ensures { Reads (sealing A.sealed keyed.now) self.now.prefix.items (size_of self.now) (plain_of self.now) (R.bytes source.now) range.start range.end out.old block.old result out.new block.new }
    {
        if range.start == range.end {
            return Ok(());
        }
        if range.start > range.end {
            return Err(StreamError::RangeReversed);
        }
        if range.end > self.plaintext_length() {
            return Err(StreamError::RangePastEnd);
        }
        let n = (range.end - range.start) as usize;
        let c = self.layout.block_size().ciphertext() as usize;
        if out.len() < n || block.len() < c {
            return Err(StreamError::MemoryTooSmall);
        }
        let blocks = Blocks {
            reader: self,
            keyed,
            source,
        };
        blocks.read_exact(range.start, &mut out[..n], &mut block[..c])
    }
}
