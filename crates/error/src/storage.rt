ghost use Rattle.std.specs.Prelude.{◌≡◌, Some};
ghost use Rattle.error.specs.Reports.{storage_report};
ghost use Rattle.code.specs.Texts.{report_text};
ghost use Rattle.error.specs.declared.storage.StorageError.TheVariants.{OutOfMemory};

use code::code::{Code, Layer};
use code::report::{Report, Reported};
use std::alloc::{AllocError, AllocFailed};
use std::error::Error;
use std::fmt;

/// Why storage refuses.
#[derive(Clone, Copy, PartialEq, Eq, Debug)]
pub enum StorageError {
    /// A source does not answer the range.
    SourceRefused,
    /// A sink does not take the bytes.
    BlockNotTaken,
    OutOfMemory,
}

impl Reported for StorageError {
    ghost told = { λ e. storage_report e };

    fn report(&self) -> Report {
        let code = match self {
            StorageError::SourceRefused => Code::SourceRefused,
            StorageError::BlockNotTaken => Code::BlockNotTaken,
            StorageError::OutOfMemory => Code::OutOfMemory,
        };
        Report {
            code,
            layer: Layer::Storage,
            position: 0,
        }
    }
}

// `Display` and `From` are written out, since a derive promises neither the text nor which variant an error becomes; and `?` needs an impl for
// each of the allocator's two errors, since Rust admits none for both.
impl fmt::Display for StorageError {
    ghost output = { λ e. Some (report_text (storage_report e)) };

    fn fmt<W: fmt::Write>(&self, f: &mut fmt::Formatter<W>) -> fmt::Result {
        self.report().fmt(f)
    }
}

impl Error for StorageError {}

impl From<AllocError> for StorageError {
    ghost from_gives = { λ _ r. r ≡ OutOfMemory };

    fn from(_lower: AllocError) -> StorageError {
        StorageError::OutOfMemory
    }
}

impl<T: Drop> From<AllocFailed<T>> for StorageError {
    ghost from_gives = { λ _ r. r ≡ OutOfMemory };

    fn from(_lower: AllocFailed<T>) -> StorageError {
        StorageError::OutOfMemory
    }
}
