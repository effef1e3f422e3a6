ghost use Rattle.std.specs.Prelude.{◌≡◌};
ghost use Rattle.layout.specs.Format.{block_count_of};
ghost use Rattle.layout.specs.Lengths.{readable};
ghost use Rattle.stream_read.specs.Makings.{ReadMade};
ghost use Rattle.stream_read.specs.Readers.{plain_of};

use crate::reader::AesGcmFileRead;
use error::stream::StreamError;
use layout::layout::FileLayout;
use layout::places::MAX_AAD_PREFIX;

impl AesGcmFileRead {
    /// A reader of a file of so many bytes and that block size, whose blocks are sealed with that AAD prefix. `BlockSize` where the
    /// block size is outside its limits, then `FileTooShort` where the file is shorter than its header, then `CiphertextTooShort` where
    /// what is left after full blocks is too short for a block, then `TooManyBlocks` where its blocks cannot be numbered in four
    /// bytes, then `OutsideLimits` where the prefix is longer than 64 bytes. Nothing is fetched, so the header is not looked at;
    /// a refusal lets the prefix go.
    pub fn new(
        file_length: u64,
        block_size: u32,
        prefix: Vec<u8>,
    ) -> Result<AesGcmFileRead, StreamError>
        ensures { ReadMade (readable block_size file_length) block_size prefix result }
    {
        let layout = FileLayout::readable(file_length, block_size)?;
        if prefix.len() > MAX_AAD_PREFIX {
            return Err(StreamError::OutsideLimits);
        }
        Ok(AesGcmFileRead { prefix, layout })
    }

    /// The plaintext bytes of the whole file.
    pub fn plaintext_length(&self) -> u64
        ensures { result ≡ plain_of self.now }
    {
        self.layout.plaintext_length()
    }

    /// How many blocks the file has.
    pub fn block_count(&self) -> u64
        ensures { result ≡ block_count_of self.now.layout.shape }
    {
        self.layout.block_count()
    }
}
