//! The length call for C: a static library over the crate `layout`.
#![tactic(auto)]

ghost use Rattle.std.specs.Prelude.{◌≡◌};
ghost use Rattle.layout.specs.Lengths.{measured, plain_length, LengthLaw};
ghost use Rattle.layout.specs.Spans.{length_answer};

use layout::c_api;
use layout::c_api::Ags1Length;

/// The plaintext bytes and the blocks of a file of so many bytes, for C.
#[unsafe(no_mangle)]
pub extern "C" fn ags1_plaintext_length(file_length: u64, block_size: u32) -> Ags1Length
    ensures value { result ≡ length_answer block_size (measured block_size file_length) }
    ensures law { LengthLaw block_size file_length (plain_length block_size (measured block_size file_length)) }
{
    c_api::ags1_plaintext_length(file_length, block_size)
}
