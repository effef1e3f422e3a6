ghost use Rattle.storage.specs.Writes.{WrittenBoth};
ghost use Rattle.storage.specs.Copies.{Copied};

use crate::sink::FileWrite;
use crate::source::FileRead;
use error::storage::StorageError;

/// Writes `a` and then `b`. Where `a` is refused, `b` is not tried.
pub fn write_both<S: FileWrite>(sink: &mut S, a: &[u8], b: &[u8]) -> Result<(), StorageError>
    ensures { WrittenBoth (S.port sink.old) a.now b.now result (S.port sink.new) }
{
    sink.write(a)?;
    sink.write(b)
}

/// Hands a range of a source on to a sink, through a memory of the range's length.
pub fn copy<R: FileRead, S: FileWrite>(
    source: &R,
    at: u64,
    through: &mut [u8],
    sink: &mut S,
) -> Result<(), StorageError>
    ensures { Copied (R.bytes source.now) at through.old (S.port sink.old) result through.new (S.port sink.new) }
{
    source.read(at, through)?;
    sink.write(through)
}
