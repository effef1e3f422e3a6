ghost use Rattle.std.specs.Prelude.{◌≡◌};
ghost use Rattle.layout.specs.Lengths.{measured, plain_length, LengthLaw};
ghost use Rattle.layout.specs.Spans.{length_answer};

use crate::layout::FileLayout;
use code::report::Reported;

/// What a C program is told of a length: code 0 and the two numbers, or the code of the refusal and zeros. A `Result` has no form in C.
#[derive(Clone, Copy)]
#[repr(C)]
pub struct Ags1Length {
    pub plaintext_length: u64,
    pub block_count: u64,
    pub code: u32,
}

/// The plaintext bytes and the blocks of a file of so many bytes, as C is told them.
pub fn ags1_plaintext_length(file_length: u64, block_size: u32) -> Ags1Length
    ensures value { result ≡ length_answer block_size (measured block_size file_length) }
    ensures law { LengthLaw block_size file_length (plain_length block_size (measured block_size file_length)) }
{
    match FileLayout::of(file_length, block_size) {
        Ok(layout) => Ags1Length {
            plaintext_length: layout.plaintext_length(),
            block_count: layout.block_count(),
            code: 0,
        },
        Err(e) => Ags1Length {
            plaintext_length: 0,
            block_count: 0,
            code: e.code().number() as u32,
        },
    }
}
