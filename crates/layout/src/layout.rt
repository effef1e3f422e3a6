ghost use Rattle.std.specs.Prelude.{◌≡◌, ◌^◌, ◌<◌, true};
ghost use Rattle.layout.specs.Format.{file_bytes};
ghost use Rattle.layout.specs.Lengths.{proper};

use crate::shape::Shape;
use crate::size::BlockSize;

/// What a file of some length consists of.
#[derive(Clone, Copy)]
pub struct FileLayout {
    pub(crate) size: BlockSize,
    pub(crate) shape: Shape,
    ghost proper: { proper size.bytes shape ≡ true },
    ghost fits: { file_bytes size.bytes shape < 2 ^ 64 },
}
