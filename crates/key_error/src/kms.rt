ghost use Rattle.std.specs.Prelude.{◌≡◌, Some};
ghost use Rattle.key_error.specs.Reports.{kms_report};
ghost use Rattle.code.specs.Texts.{report_text};
ghost use Rattle.key_error.specs.declared.kms.KmsError.TheVariants.{Cipher, OutOfMemory};

use code::code::{Code, Layer};
use code::report::{Report, Reported};
use error::cipher::CipherError;
use std::alloc::{AllocError, AllocFailed};
use std::error::Error;
use std::fmt;

/// Why a key service refuses.
#[derive(Clone, Copy, PartialEq, Eq, Debug)]
pub enum KmsError {
    /// A buffer handed in is too small.
    MemoryTooSmall,
    /// The service does not answer at this moment.
    Unavailable,
    /// The service has no master key of that id.
    UnknownMasterKey,
    /// The service does not generate keys.
    CannotGenerate,
    /// Every slot for keys is taken.
    NoFreeSlot,
    /// A master key of that id stands already.
    Duplicate,
    /// A field is outside its limits.
    OutsideLimits,
    /// Wrapped bytes do not open, a key has a wrong length, or no nonce is left.
    Cipher(CipherError),
    OutOfMemory,
}

impl Reported for KmsError {
    ghost told = { λ e. kms_report e };

    fn report(&self) -> Report {
        let code = match self {
            KmsError::MemoryTooSmall => Code::MemoryTooSmall,
            KmsError::Unavailable => Code::Unavailable,
            KmsError::UnknownMasterKey => Code::UnknownMasterKey,
            KmsError::CannotGenerate => Code::CannotGenerate,
            KmsError::NoFreeSlot => Code::NoFreeSlot,
            KmsError::Duplicate => Code::Duplicate,
            KmsError::OutsideLimits => Code::OutsideLimits,
            KmsError::Cipher(e) => e.code(),
            KmsError::OutOfMemory => Code::OutOfMemory,
        };
        Report {
            code,
            layer: Layer::KeyService,
            position: 0,
        }
    }
}

// `Display` and `From` are written out, since a derive promises neither the text nor which variant an error becomes; and `?` needs an impl for
// each of the allocator's two errors, since Rust admits none for both.
impl fmt::Display for KmsError {
    ghost output = { λ e. Some (report_text (kms_report e)) };

    fn fmt<W: fmt::Write>(&self, f: &mut fmt::Formatter<W>) -> fmt::Result {
        self.report().fmt(f)
    }
}

impl From<CipherError> for KmsError {
    ghost from_gives = { λ e r. r ≡ Cipher e };

    fn from(lower: CipherError) -> KmsError {
        KmsError::Cipher(lower)
    }
}

impl Error for KmsError {}

impl From<AllocError> for KmsError {
    ghost from_gives = { λ _ r. r ≡ OutOfMemory };

    fn from(_lower: AllocError) -> KmsError {
        KmsError::OutOfMemory
    }
}

impl<T: Drop> From<AllocFailed<T>> for KmsError {
    ghost from_gives = { λ _ r. r ≡ OutOfMemory };

    fn from(_lower: AllocFailed<T>) -> KmsError {
        KmsError::OutOfMemory
    }
}
