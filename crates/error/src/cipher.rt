ghost use Rattle.std.specs.Prelude.{◌≡◌, Some};
ghost use Rattle.error.specs.Reports.{cipher_report};
ghost use Rattle.code.specs.Texts.{report_text};
ghost use Rattle.error.specs.declared.cipher.CipherError.TheVariants.{OutOfMemory};

use code::code::{Code, Layer};
use code::report::{Report, Reported};
use std::alloc::{AllocError, AllocFailed};
use std::error::Error;
use std::fmt;

/// Why a cipher, a key or a nonce source refuses.
#[derive(Clone, Copy, PartialEq, Eq, Debug)]
pub enum CipherError {
    /// A sealed text of fewer than 28 bytes.
    CiphertextTooShort,
    /// A buffer handed in is too small.
    MemoryTooSmall,
    /// No plaintext seals to these bytes.
    NotAuthentic,
    /// A key of another length than 16, 24 or 32 bytes.
    KeyLength,
    /// The nonce source has no nonce left.
    NoncesExhausted,
    /// A nonce stands twice in a list.
    Duplicate,
    /// A text or its AAD is longer than a cipher takes.
    OutsideLimits,
    OutOfMemory,
}

impl Reported for CipherError {
    ghost told = { λ e. cipher_report e };

    fn report(&self) -> Report {
        let code = match self {
            CipherError::CiphertextTooShort => Code::CiphertextTooShort,
            CipherError::MemoryTooSmall => Code::MemoryTooSmall,
            CipherError::NotAuthentic => Code::NotAuthentic,
            CipherError::KeyLength => Code::KeyLength,
            CipherError::NoncesExhausted => Code::NoncesExhausted,
            CipherError::Duplicate => Code::Duplicate,
            CipherError::OutsideLimits => Code::OutsideLimits,
            CipherError::OutOfMemory => Code::OutOfMemory,
        };
        Report {
            code,
            layer: Layer::Cipher,
            position: 0,
        }
    }
}

// `Display` and `From` are written out, since a derive promises neither the text nor which variant an error becomes; and `?` needs an impl for
// each of the allocator's two errors, since Rust admits none for both.
impl fmt::Display for CipherError {
    ghost output = { λ e. Some (report_text (cipher_report e)) };

    fn fmt<W: fmt::Write>(&self, f: &mut fmt::Formatter<W>) -> fmt::Result {
        self.report().fmt(f)
    }
}

impl Error for CipherError {}

impl From<AllocError> for CipherError {
    ghost from_gives = { λ _ r. r ≡ OutOfMemory };

    fn from(_lower: AllocError) -> CipherError {
        CipherError::OutOfMemory
    }
}

impl<T: Drop> From<AllocFailed<T>> for CipherError {
    ghost from_gives = { λ _ r. r ≡ OutOfMemory };

    fn from(_lower: AllocFailed<T>) -> CipherError {
        CipherError::OutOfMemory
    }
}
