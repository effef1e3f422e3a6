ghost use Rattle.std.specs.Prelude.{◌≡◌, ◌+◌, ◌≤◌, length, take, drop};
ghost use Rattle.aes.specs.Words.{word_bytes};
ghost use Rattle.aes.specs.Blocks.{bytes_of};

/// A block of 16 bytes, as four words whose most significant byte comes first.
#[derive(Clone, Copy)]
pub struct Block {
    pub a: u32,
    pub b: u32,
    pub c: u32,
    pub d: u32,
}

/// The word whose first byte stands at i.
pub fn word_at(bytes: &[u8], i: usize) -> u32
    requires { i + 4 ≤ length bytes.now }
    ensures { word_bytes result ≡ take 4 (drop i bytes.now) }
{
    u32::from_be_bytes(bytes[i..i + 4].try_into().unwrap())
}

// Functions with names and no `From`, as std has for a word: `u32::from_be_bytes` and `to_be_bytes`.
impl Block {
    /// The block of these bytes.
    pub fn from_bytes(bytes: &[u8; 16]) -> Block
        ensures { bytes_of result ≡ bytes.now }
    {
        Block {
            a: word_at(bytes, 0),
            b: word_at(bytes, 4),
            c: word_at(bytes, 8),
            d: word_at(bytes, 12),
        }
    }

    /// The bytes of the block.
    pub fn to_bytes(self) -> [u8; 16]
        ensures { result ≡ bytes_of self }
    {
        let words = [self.a, self.b, self.c, self.d].map(u32::to_be_bytes);
        words.as_flattened().try_into().unwrap()
    }
}
