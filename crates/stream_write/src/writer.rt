ghost use Rattle.std.specs.Prelude.{◌+◌, ◌<◌, ◌≤◌, vec_len};
ghost use Rattle.stream_write.specs.Writers.{held_in};

use crate::phase::Phase;
use layout::size::BlockSize;

/// Writes an encrypted file to a sink. It owns its block buffer, in which plaintext is gathered and sealed, and gives it back,
/// wiped, at its end; it cannot be let go otherwise. Keyed cipher, sink and nonce source are handed to each call.
pub struct AesGcmFileWrite {
    pub(crate) block: Vec<u8>,
    pub(crate) prefix: Vec<u8>,
    pub(crate) size: BlockSize,
    pub(crate) phase: Phase,
    ghost under: { held_in phase < size.bytes },
    ghost fits: { size.bytes + 28 ≤ vec_len block },
    ghost short: { vec_len prefix ≤ 64 },
}
