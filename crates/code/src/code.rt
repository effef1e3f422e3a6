ghost use Rattle.std.specs.Prelude.{◌≡◌};
ghost use Rattle.code.specs.Codes.{code_number, code_name, layer_name};
ghost use Rattle.code.specs.declared.code.Code.{Code};

/// The code of an error. The numbers are part of the interface: programs and people refer to an error by them.
#[derive(Clone, Copy, Debug, PartialEq, Eq)]
pub enum Code {
    FileTooShort = 1,
    CiphertextTooShort = 2,
    TooManyBlocks = 3,
    BlockSize = 4,
    RangeReversed = 5,
    RangePastEnd = 6,
    MemoryTooSmall = 7,
    SourceRefused = 8,
    NotAuthentic = 9,
    KeyLength = 10,
    WriterClosed = 11,
    WriterPoisoned = 12,
    HeaderNotTaken = 13,
    BlockNotTaken = 14,
    NoncesExhausted = 15,
    NoSuchKey = 16,
    NoWrappingKeyId = 17,
    NoTimestamp = 18,
    Unavailable = 19,
    UnknownMasterKey = 20,
    CannotGenerate = 21,
    NoFreeSlot = 22,
    Duplicate = 23,
    OutsideLimits = 24,
    OutOfMemory = 255,
}

impl Code {
    /// The code's number, which is no other code's.
    pub fn number(self) -> u8
        ensures value { result ≡ code_number self }
        ensures alone { (other : Code) → code_number other ≡ result → other ≡ self }
    {
        self as u8
    }

    /// The code's name.
    pub fn name(self) -> &'static str
        ensures { result.now ≡ code_name self }
    {
        match self {
            Code::FileTooShort => "FileTooShort",
            Code::CiphertextTooShort => "CiphertextTooShort",
            Code::TooManyBlocks => "TooManyBlocks",
            Code::BlockSize => "BlockSize",
            Code::RangeReversed => "RangeReversed",
            Code::RangePastEnd => "RangePastEnd",
            Code::MemoryTooSmall => "MemoryTooSmall",
            Code::SourceRefused => "SourceRefused",
            Code::NotAuthentic => "NotAuthentic",
            Code::KeyLength => "KeyLength",
            Code::WriterClosed => "WriterClosed",
            Code::WriterPoisoned => "WriterPoisoned",
            Code::HeaderNotTaken => "HeaderNotTaken",
            Code::BlockNotTaken => "BlockNotTaken",
            Code::NoncesExhausted => "NoncesExhausted",
            Code::NoSuchKey => "NoSuchKey",
            Code::NoWrappingKeyId => "NoWrappingKeyId",
            Code::NoTimestamp => "NoTimestamp",
            Code::Unavailable => "Unavailable",
            Code::UnknownMasterKey => "UnknownMasterKey",
            Code::CannotGenerate => "CannotGenerate",
            Code::NoFreeSlot => "NoFreeSlot",
            Code::Duplicate => "Duplicate",
            Code::OutsideLimits => "OutsideLimits",
            Code::OutOfMemory => "OutOfMemory",
        }
    }
}

/// The layer that refused.
#[derive(Clone, Copy, PartialEq, Eq, Debug)]
pub enum Layer {
    Storage,
    Cipher,
    Stream,
    KeyService,
    Manager,
}

impl Layer {
    /// The layer's name.
    pub fn name(self) -> &'static str
        ensures { result.now ≡ layer_name self }
    {
        match self {
            Layer::Storage => "storage",
            Layer::Cipher => "cipher",
            Layer::Stream => "stream",
            Layer::KeyService => "key service",
            Layer::Manager => "manager",
        }
    }
}
