ghost use Rattle.std.specs.Prelude.{◌≡◌, ◌+◌, ◌<◌, ◌≤◌, vec_len, vec_capacity};

/// A file in one memory, which is reserved at the making, so that no write fails for want of memory. As a source it has the bytes
/// that it took as a sink.
#[derive(Drop)]
pub struct MemoryFile {
    pub(crate) bytes: Vec<u8>,
    // Kept beside the capacity, of which a write to a `Vec` promises only that it does not shrink.
    pub(crate) room: usize,
    // A flag and no type of its own, since a closed file is still read.
    pub(crate) open: bool,
    ghost reserved: { vec_len bytes + room ≤ vec_capacity bytes },
}

/// A file in two memories, of which the second goes on where the first is full. As a source it has the bytes that it took as a
/// sink. Not one of two sinks of any kind, since a sink doesn't tell code its room.
#[derive(Drop)]
pub struct TwoMemories {
    pub(crate) first: MemoryFile,
    pub(crate) second: MemoryFile,
    ghost turn: { 0 < first.room → vec_len second.bytes ≡ 0 },
}
