ghost use Rattle.std.specs.Prelude.{◌≡◌, map, string_bytes};
ghost use Rattle.tool.specs.Words.{NumberRead, HelpAsked, LengthAsked, Asked};

use crate::command::{Command, UsageError};

// The number that a word writes in decimal digits, if it fits 64 bits.
fn number(word: &str) -> Option<u64>
    ensures { NumberRead word.now result }
{
    word.parse::<u64>().ok()
}

fn help(arguments: &[String]) -> Result<Command, UsageError>
    ensures { HelpAsked (map string_bytes arguments.now) result }
{
    match arguments {
        [] => Ok(Command::Help),
        _ => Err(UsageError::TooManyArguments),
    }
}

// A block size past 32 bits is past its limit, and stays so.
fn length(arguments: &[String]) -> Result<Command, UsageError>
    ensures { LengthAsked (map string_bytes arguments.now) result }
{
    match arguments {
        [] | [_] => Err(UsageError::TooFewArguments),
        [block_size, file_length] => {
            let block_size = number(block_size.as_str()).ok_or(UsageError::BlockSize)?;
            let file_length = number(file_length.as_str()).ok_or(UsageError::FileLength)?;
            Ok(Command::Length(block_size.min(4_294_967_295) as u32, file_length))
        }
        _ => Err(UsageError::TooManyArguments),
    }
}

/// What the words after the program's name ask.
pub fn parse(words: &[String]) -> Result<Command, UsageError>
    ensures { Asked (map string_bytes words.now) result }
{
    match words {
        [] => Ok(Command::Account),
        [command, arguments @ ..] => match command.as_str() {
            "help" => help(arguments),
            "length" => length(arguments),
            _ => Err(UsageError::UnknownCommand),
        },
    }
}
