/// A plaintext byte by its block.
#[derive(Clone, Copy)]
pub struct BlockOffset {
    pub block: u64,
    /// Its place in the block's plaintext.
    pub offset: u32,
}

/// Where a block stands in the file.
#[derive(Clone, Copy)]
pub struct BlockSpan {
    pub start: u64,
    /// Its plaintext bytes; the block takes 28 bytes more.
    pub plaintext: u32,
}
