ghost use Rattle.std.specs.Prelude.{◌≡◌, Some};
ghost use Rattle.key_error.specs.Reports.{manager_report, role_position};
ghost use Rattle.code.specs.Texts.{report_text};
ghost use Rattle.key_error.specs.declared.manager.ManagerError.TheVariants.{Cipher, Kms, OutOfMemory};

use crate::kms::KmsError;
use code::code::{Code, Layer};
use code::report::{Report, Reported};
use error::cipher::CipherError;
use std::alloc::{AllocError, AllocFailed};
use std::error::Error;
use std::fmt;

/// Which of the two records of an unwrap or a wrap an error is about.
#[derive(Clone, Copy, PartialEq, Eq, Debug)]
pub enum KeyRole {
    /// The record that holds the wrapped metadata.
    Record,
    /// The record of the key-encryption key that it is wrapped with.
    Kek,
}

impl KeyRole {
    pub fn position(self) -> u32
        ensures { result ≡ role_position self }
    {
        match self {
            KeyRole::Record => 0,
            KeyRole::Kek => 1,
        }
    }
}

/// Why the key manager refuses.
#[derive(Clone, Copy, PartialEq, Eq, Debug)]
pub enum ManagerError {
    /// A buffer handed in is too small.
    MemoryTooSmall,
    /// There is no record of that id.
    NoSuchKey(KeyRole),
    /// The record names no key that it is wrapped with.
    NoWrappingKeyId(KeyRole),
    /// The KEK has no timestamp.
    NoTimestamp,
    /// Too few slots are free.
    NoFreeSlot,
    /// A record of that id stands already.
    Duplicate(KeyRole),
    /// A field is outside its limits.
    OutsideLimits,
    /// The record's wrapped bytes do not open, or no nonce is left to seal them.
    Cipher(CipherError),
    /// The key service refused.
    Kms(KmsError),
    OutOfMemory,
}

impl Reported for ManagerError {
    ghost told = { λ e. manager_report e };

    fn report(&self) -> Report {
        let (code, position) = match self {
            ManagerError::MemoryTooSmall => (Code::MemoryTooSmall, 0),
            ManagerError::NoSuchKey(role) => (Code::NoSuchKey, role.position()),
            ManagerError::NoWrappingKeyId(role) => (Code::NoWrappingKeyId, role.position()),
            ManagerError::NoTimestamp => (Code::NoTimestamp, 1),
            ManagerError::NoFreeSlot => (Code::NoFreeSlot, 0),
            ManagerError::Duplicate(role) => (Code::Duplicate, role.position()),
            ManagerError::OutsideLimits => (Code::OutsideLimits, 0),
            ManagerError::Cipher(e) => (e.code(), 0),
            ManagerError::Kms(e) => (e.code(), 1),
            ManagerError::OutOfMemory => (Code::OutOfMemory, 0),
        };
        Report {
            code,
            layer: Layer::Manager,
            position,
        }
    }
}

// `Display` and `From` are written out, since a derive promises neither the text nor which variant an error becomes; and `?` needs an impl for
// each of the allocator's two errors, since Rust admits none for both.
impl fmt::Display for ManagerError {
    ghost output = { λ e. Some (report_text (manager_report e)) };

    fn fmt<W: fmt::Write>(&self, f: &mut fmt::Formatter<W>) -> fmt::Result {
        self.report().fmt(f)
    }
}

impl From<CipherError> for ManagerError {
    ghost from_gives = { λ e r. r ≡ Cipher e };

    fn from(lower: CipherError) -> ManagerError {
        ManagerError::Cipher(lower)
    }
}

impl From<KmsError> for ManagerError {
    ghost from_gives = { λ e r. r ≡ Kms e };

    fn from(lower: KmsError) -> ManagerError {
        ManagerError::Kms(lower)
    }
}

impl Error for ManagerError {}

impl From<AllocError> for ManagerError {
    ghost from_gives = { λ _ r. r ≡ OutOfMemory };

    fn from(_lower: AllocError) -> ManagerError {
        ManagerError::OutOfMemory
    }
}

impl<T: Drop> From<AllocFailed<T>> for ManagerError {
    ghost from_gives = { λ _ r. r ≡ OutOfMemory };

    fn from(_lower: AllocFailed<T>) -> ManagerError {
        ManagerError::OutOfMemory
    }
}
