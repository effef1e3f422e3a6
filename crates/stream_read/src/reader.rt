ghost use Rattle.std.specs.Prelude.{◌≤◌, vec_len};
ghost use Rattle.layout.specs.Format.{block_count_of};

use layout::layout::FileLayout;

/// Reads ranges of an encrypted file's plaintext. It holds the file's layout and AAD prefix; memory, keyed cipher and source are
/// handed to each call.
#[derive(Drop)]
pub struct AesGcmFileRead {
    pub(crate) prefix: Vec<u8>,
    pub(crate) layout: FileLayout,
    ghost few: { block_count_of layout.shape ≤ 4294967295 },
    ghost short: { vec_len prefix ≤ 64 },
}
