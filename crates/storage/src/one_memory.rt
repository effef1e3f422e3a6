ghost use Rattle.std.specs.Prelude.{◌≡◌, MatchResult};
ghost use Rattle.error.specs.declared.storage.StorageError.TheVariants.{OutOfMemory};
ghost use Rattle.storage.specs.Memories.{memory_port, memory_bytes, ReadsTaken};
ghost use Rattle.storage.specs.Ports.{fresh, emptied};

use crate::memory::MemoryFile;
use crate::sink::FileWrite;
use crate::source::{FileRead, copy_range};
use error::storage::StorageError;
use std::alloc::Global;

impl MemoryFile {
    /// An empty, open file with room for `room` bytes; refused where there is no memory for them.
    pub fn new(heap: Global, room: usize) -> Result<MemoryFile, StorageError>
        ensures made { MatchResult result (λ m. memory_port m ≡ fresh room) (λ e. e ≡ OutOfMemory) }
        ensures same { ReadsTaken memory_port memory_bytes }
    {
        let bytes = Vec::with_capacity(heap, room)?;
        Ok(MemoryFile {
            bytes,
            room,
            open: true,
        })
    }

    /// Forgets the bytes that it took, and has their room again: for a program that handed them on.
    pub fn clear(&mut self)
        ensures { memory_port self.new ≡ emptied (memory_port self.old) }
    {
        self.room += self.bytes.len();
        self.bytes.clear();
    }

    /// The bytes that it took.
    pub fn as_slice(&self) -> &[u8]
        ensures { result.now ≡ memory_bytes self.now }
    {
        self.bytes.as_slice()
    }
}

impl FileWrite for MemoryFile {
    ghost port = { memory_port };

    fn write(&mut self, bytes: &[u8]) -> Result<(), StorageError> {
        if !self.open || bytes.len() > self.room {
            return Err(StorageError::BlockNotTaken);
        }
        // The capacity is reserved, so this is not refused.
        let _ = self.bytes.extend_from_slice(bytes);
        self.room -= bytes.len();
        Ok(())
    }

    fn close(&mut self) {
        self.open = false;
    }
}

impl FileRead for MemoryFile {
    ghost bytes = { memory_bytes };

    fn read(&self, at: u64, into: &mut [u8]) -> Result<(), StorageError> {
        copy_range(&self.bytes, at, into)
    }
}
