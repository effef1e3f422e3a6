ghost use Rattle.std.specs.Prelude.{◌≡◌, Some};
ghost use Rattle.tool.specs.Texts.{usage_message};

use std::error::Error;
use std::fmt;

/// What a user asks of the tool.
#[derive(Clone, Copy, PartialEq, Eq, Debug)]
pub enum Command {
    /// No words: one task from beginning to end, with an account of it.
    Account,
    Help,
    /// The plaintext length of a file, by its block size and its length.
    Length(u32, u64),
}

/// Why the words are not understood.
#[derive(Clone, Copy, PartialEq, Eq, Debug)]
pub enum UsageError {
    UnknownCommand,
    TooFewArguments,
    TooManyArguments,
    /// The block size is no number of 64 bits.
    BlockSize,
    /// The file length is no number of 64 bits.
    FileLength,
}

impl UsageError {
    /// What the user is told.
    pub fn message(self) -> &'static str
        ensures { result.now ≡ usage_message self }
    {
        match self {
            UsageError::UnknownCommand => "no such command; 'ags1 help' says what there is",
            UsageError::TooFewArguments => "too few arguments; 'ags1 help' says what there is",
            UsageError::TooManyArguments => "too many arguments; 'ags1 help' says what there is",
            UsageError::BlockSize => {
                "BLOCK_SIZE must be a whole number from 0 to 18446744073709551615"
            }
            UsageError::FileLength => {
                "FILE_LENGTH must be a whole number from 0 to 18446744073709551615"
            }
        }
    }
}

impl fmt::Display for UsageError {
    ghost output = { λ x. Some (usage_message x) };

    fn fmt<W: fmt::Write>(&self, f: &mut fmt::Formatter<W>) -> fmt::Result {
        f.write_str(self.message())
    }
}

impl Error for UsageError {}

/// What the tool can do.
pub const HELP: &str = "ags1: encrypted files in the AGS1 format

  ags1
      Runs one task from beginning to end and prints an account of it: the
      plan of an encrypted cargo list, one entry of it sealed and opened again,
      and storage that is full.

  ags1 length BLOCK_SIZE FILE_LENGTH
      Prints the plaintext length of an encrypted file of FILE_LENGTH bytes
      whose full blocks hold BLOCK_SIZE bytes of plaintext.

  ags1 help
      Prints this text.

A refusal is told on standard error as 'ags1: code N NAME, layer LAYER, position P',
and the status is then 1.
";
