ghost use Rattle.std.specs.Prelude.{◌≡◌, Some};
ghost use Rattle.error.specs.Reports.{stream_report, marked};
ghost use Rattle.code.specs.Texts.{report_text};
ghost use Rattle.error.specs.declared.stream.StreamError.TheVariants.{Storage, Cipher, OutOfMemory};

use crate::cipher::CipherError;
use crate::storage::StorageError;
use code::code::{Code, Layer};
use code::report::{Report, Reported};
use std::alloc::{AllocError, AllocFailed};
use std::error::Error;
use std::fmt;

/// An error of a lower layer, with the number of the block at which it came.
#[derive(Clone, Copy, PartialEq, Eq, Debug)]
pub struct At<E> {
    pub error: E,
    pub block: u32,
}

/// The result of a lower layer's call, its error marked with the block.
pub fn at_block<T, E>(answer: Result<T, E>, block: u32) -> Result<T, At<E>>
    ensures { result ≡ marked answer block }
{
    answer.map_err(|error| At { error, block })
}

/// Why an encrypted file refuses.
#[derive(Clone, Copy, PartialEq, Eq, Debug)]
pub enum StreamError {
    /// The file is shorter than its header.
    FileTooShort,
    /// After its full blocks the file has 1 to 27 bytes, too few for a block.
    CiphertextTooShort,
    /// The file has, or would have, more than 4,294,967,295 blocks.
    TooManyBlocks,
    /// The block size is not within 1 to 4,294,967,267.
    BlockSize,
    /// A range starts after its end.
    RangeReversed,
    /// A range ends after the plaintext.
    RangePastEnd,
    /// A buffer handed in is too small.
    MemoryTooSmall,
    WriterClosed,
    WriterPoisoned,
    /// The AAD prefix is longer than 64 bytes.
    OutsideLimits,
    /// The sink did not take the header.
    HeaderNotTaken(StorageError),
    /// Storage refused at a block.
    Storage(At<StorageError>),
    /// The cipher, the key or the nonce source refused at a block.
    Cipher(At<CipherError>),
    OutOfMemory,
}

impl Reported for StreamError {
    ghost told = { λ e. stream_report e };

    fn report(&self) -> Report {
        let (code, position) = match self {
            StreamError::FileTooShort => (Code::FileTooShort, 0),
            StreamError::CiphertextTooShort => (Code::CiphertextTooShort, 0),
            StreamError::TooManyBlocks => (Code::TooManyBlocks, 0),
            StreamError::BlockSize => (Code::BlockSize, 0),
            StreamError::RangeReversed => (Code::RangeReversed, 0),
            StreamError::RangePastEnd => (Code::RangePastEnd, 0),
            StreamError::MemoryTooSmall => (Code::MemoryTooSmall, 0),
            StreamError::WriterClosed => (Code::WriterClosed, 0),
            StreamError::WriterPoisoned => (Code::WriterPoisoned, 0),
            StreamError::OutsideLimits => (Code::OutsideLimits, 0),
            StreamError::HeaderNotTaken(_) => (Code::HeaderNotTaken, 0),
            StreamError::Storage(at) => (at.error.code(), at.block),
            StreamError::Cipher(at) => (at.error.code(), at.block),
            StreamError::OutOfMemory => (Code::OutOfMemory, 0),
        };
        Report {
            code,
            layer: Layer::Stream,
            position,
        }
    }
}

// `Display` and `From` are written out, since a derive promises neither the text nor which variant an error becomes; and `?` needs an impl for
// each of the allocator's two errors, since Rust admits none for both.
impl fmt::Display for StreamError {
    ghost output = { λ e. Some (report_text (stream_report e)) };

    fn fmt<W: fmt::Write>(&self, f: &mut fmt::Formatter<W>) -> fmt::Result {
        self.report().fmt(f)
    }
}

impl From<At<StorageError>> for StreamError {
    ghost from_gives = { λ e r. r ≡ Storage e };

    fn from(lower: At<StorageError>) -> StreamError {
        StreamError::Storage(lower)
    }
}

impl From<At<CipherError>> for StreamError {
    ghost from_gives = { λ e r. r ≡ Cipher e };

    fn from(lower: At<CipherError>) -> StreamError {
        StreamError::Cipher(lower)
    }
}

impl Error for StreamError {}

impl From<AllocError> for StreamError {
    ghost from_gives = { λ _ r. r ≡ OutOfMemory };

    fn from(_lower: AllocError) -> StreamError {
        StreamError::OutOfMemory
    }
}

impl<T: Drop> From<AllocFailed<T>> for StreamError {
    ghost from_gives = { λ _ r. r ≡ OutOfMemory };

    fn from(_lower: AllocFailed<T>) -> StreamError {
        StreamError::OutOfMemory
    }
}
