ghost use Rattle.std.specs.Prelude.{◌+◌, ◌<◌, ◌≤◌, length};
ghost use Rattle.layout.specs.Format.{block_count_of};
ghost use Rattle.stream_read.specs.Fetches.{Fetched};
ghost use Rattle.stream_read.specs.Readers.{size_of};

use crate::reader::AesGcmFileRead;
use aead::aead::{Aead, KeyedCipher};
use error::stream::{StreamError, at_block};
use layout::places::block_aad;
use sealed_text::frame::OVERHEAD;
use storage::source::FileRead;

// The blocks of a file, with what they are fetched from and opened with.
#[derive(Drop)]
pub(crate) struct Blocks<'a, R, A> {
    pub(crate) reader: &'a AesGcmFileRead,
    pub(crate) keyed: &'a KeyedCipher<'a, A>,
    pub(crate) source: &'a R,
}

impl<R: FileRead, A: Aead> Blocks<'_, R, A> {
    // Fetches block `number` into the front of `block` and opens it there: its plaintext.
    pub(crate) fn fetch<'b>(
        &self,
        number: u64,
        block: &'b mut [u8],
    ) -> Result<&'b [u8], StreamError>
        requires there { number < block_count_of self.now.reader.now.layout.shape }
        requires room { size_of self.now.reader.now + 28 ≤ length block.old }
        ensures { Fetched A.sealed R.bytes self.now number result }
    {
        // The file has the block, and a block holds a nonce and a tag, so each `unwrap` finds its value.
        let span = self.reader.layout.block(number).unwrap();
        let n = span.plaintext as usize;
        let i = number as u32;
        let aad = block_aad(&self.reader.prefix, i)?;
        let sealed = &mut block[..n + OVERHEAD];
        at_block(self.source.read(span.start, sealed), i)?;
        let (nonce, rest) = sealed.split_first_chunk_mut::<12>().unwrap();
        let (text, tag) = rest.split_last_chunk_mut::<16>().unwrap();
        at_block(self.keyed.open(nonce, &aad, text, tag), i)?;
        Ok(text)
    }
}
