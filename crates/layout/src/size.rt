ghost use Rattle.std.specs.Prelude.{◌≤◌};

/// The bytes of the header.
pub const HEADER_LENGTH: u64 = 8;
/// The bytes of a block besides its ciphertext: a nonce of 12 and a tag of 16.
pub const BLOCK_OVERHEAD: u64 = 28;
/// The largest block size: a full block then takes 4,294,967,295 bytes.
pub const MAX_BLOCK_SIZE: u32 = 4_294_967_267;
/// The most blocks that a file may have, since a block's number has four bytes.
pub const MAX_BLOCKS: u64 = 4_294_967_295;

/// The plaintext bytes of a full block, within their limits.
#[derive(Clone, Copy)]
pub struct BlockSize {
    pub(crate) bytes: u32,
    ghost some: { 1 ≤ bytes },
    ghost most: { bytes ≤ 4294967267 },
}
