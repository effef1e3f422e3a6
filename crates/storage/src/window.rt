ghost use Rattle.storage.specs.Windows.{window_bytes, Windowed};

use crate::source::FileRead;
use error::storage::StorageError;
use std::ops::Range;

/// A range of a source: a source of exactly those bytes.
#[derive(Drop)]
pub struct Window<R> {
    source: R,
    range: Range<u64>,
}

impl<R: FileRead + Drop> Window<R> {
    /// The bytes of that range; refused exactly where the source does not answer it. The source is let go where it is
    /// refused.
    pub fn new(source: R, range: Range<u64>) -> Result<Window<R>, StorageError>
        ensures { Windowed R.FileRead.bytes source range.start range.end result }
    {
        if range.start > range.end {
            return Err(StorageError::SourceRefused);
        }
        // An empty range at the end is answered exactly where the source reaches the end.
        source.read(range.end, &mut [])?;
        Ok(Window { source, range })
    }
}

impl<R: FileRead> FileRead for Window<R> {
    ghost bytes = { window_bytes R.FileRead.bytes };

    fn read(&self, at: u64, into: &mut [u8]) -> Result<(), StorageError> {
        let size = self.range.end.saturating_sub(self.range.start);
        let n = into.len() as u64;
        if at > size || n > size - at {
            return Err(StorageError::SourceRefused);
        }
        // An empty range at the start lies in every window.
        if at + n == 0 {
            return Ok(());
        }
        self.source.read(self.range.start + at, into)
    }
}
