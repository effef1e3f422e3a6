ghost use Rattle.std.specs.Prelude.{◌≡◌};
ghost use Rattle.ctr.specs.Ivs.{iv_bytes};

use aes::block::word_at;

/// An initialization vector of 12 bytes, as three words whose most significant byte comes first. Not one type with the block of four, since their
/// bytes would be an array of a computed length.
#[derive(Clone, Copy)]
pub struct Iv {
    pub a: u32,
    pub b: u32,
    pub c: u32,
}

// Named as the block's, and no `From`.
impl Iv {
    /// The IV of these bytes.
    pub fn from_bytes(bytes: &[u8; 12]) -> Iv
        ensures { iv_bytes result ≡ bytes.now }
    {
        Iv {
            a: word_at(bytes, 0),
            b: word_at(bytes, 4),
            c: word_at(bytes, 8),
        }
    }
}
