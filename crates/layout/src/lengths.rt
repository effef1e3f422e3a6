ghost use Rattle.std.specs.Prelude.{◌≡◌, ℕ};
ghost use Rattle.layout.specs.Format.{file_bytes, plain_bytes, block_count_of};
ghost use Rattle.layout.specs.Lengths.{measured, readable, closed, plain_length, LengthLaw, ClosedLaw};
ghost use Rattle.layout.specs.Made.{LaidOut};

use crate::layout::FileLayout;
use crate::shape::Shape;
use crate::size::{BLOCK_OVERHEAD, BlockSize, HEADER_LENGTH, MAX_BLOCKS};
use error::stream::StreamError;

impl FileLayout {
    /// What a file of so many bytes consists of, if there is such a file.
    pub fn of(file_length: u64, block_size: u32) -> Result<FileLayout, StreamError>
        ensures { LaidOut block_size (measured block_size file_length) result }
    {
        let size = BlockSize::new(block_size)?;
        if file_length < HEADER_LENGTH {
            return Err(StreamError::FileTooShort);
        }
        let full = (file_length - HEADER_LENGTH) / size.ciphertext();
        let rest = (file_length - HEADER_LENGTH) % size.ciphertext();
        if rest == 0 {
            return Ok(FileLayout {
                size,
                shape: Shape::Full(full),
            });
        }
        if rest < BLOCK_OVERHEAD {
            return Err(StreamError::CiphertextTooShort);
        }
        Ok(FileLayout {
            size,
            shape: Shape::Partial(full, (rest - BLOCK_OVERHEAD) as u32),
        })
    }

    /// The same of a file that can be read: each of its blocks has a number.
    pub fn readable(file_length: u64, block_size: u32) -> Result<FileLayout, StreamError>
        ensures { LaidOut block_size (readable block_size file_length) result }
    {
        let layout = FileLayout::of(file_length, block_size)?;
        if layout.block_count() > MAX_BLOCKS {
            return Err(StreamError::TooManyBlocks);
        }
        Ok(layout)
    }

    /// What a writer leaves that closes after so many plaintext bytes.
    pub fn closed(plaintext_length: u64, block_size: u32) -> Result<FileLayout, StreamError>
        ensures value { LaidOut block_size (closed block_size plaintext_length) result }
        ensures law { ClosedLaw block_size plaintext_length (closed block_size plaintext_length) }
    {
        let size = BlockSize::new(block_size)?;
        let full = plaintext_length / block_size as u64;
        let last = (plaintext_length % block_size as u64) as u32;
        if full > MAX_BLOCKS {
            return Err(StreamError::TooManyBlocks);
        }
        if full > 0 && last == 0 {
            return Ok(FileLayout {
                size,
                shape: Shape::Full(full),
            });
        }
        if full == MAX_BLOCKS {
            return Err(StreamError::TooManyBlocks);
        }
        Ok(FileLayout {
            size,
            shape: Shape::Partial(full, last),
        })
    }

    /// The block size of the file.
    pub fn block_size(&self) -> BlockSize
        ensures { result ≡ self.now.size }
    {
        self.size
    }

    /// The bytes of the whole file.
    pub fn file_length(&self) -> u64
        ensures { result ≡ file_bytes self.now.size.bytes self.now.shape }
    {
        let block = self.size.ciphertext();
        match self.shape {
            Shape::Full(full) => HEADER_LENGTH + full * block,
            Shape::Partial(full, last) => HEADER_LENGTH
                + full * block
                + BLOCK_OVERHEAD
                + last as u64,
        }
    }

    /// The plaintext bytes of the whole file.
    pub fn plaintext_length(&self) -> u64
        ensures { result ≡ plain_bytes self.now.size.bytes self.now.shape }
    {
        let block = self.size.plaintext() as u64;
        match self.shape {
            Shape::Full(full) => full * block,
            Shape::Partial(full, last) => full * block + last as u64,
        }
    }

    /// How many blocks the file has.
    pub fn block_count(&self) -> u64
        ensures { result ≡ block_count_of self.now.shape }
    {
        match self.shape {
            Shape::Full(full) => full,
            Shape::Partial(full, _) => full + 1,
        }
    }
}

/// The plaintext bytes of a file of so many bytes.
pub fn plaintext_length(file_length: u64, block_size: u32) -> Result<u64, StreamError>
    ensures value { result ≡ plain_length block_size (measured block_size file_length) }
    ensures law { LengthLaw block_size file_length result }
{
    Ok(FileLayout::of(file_length, block_size)?.plaintext_length())
}
