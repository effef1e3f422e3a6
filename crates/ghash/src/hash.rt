ghost use Rattle.std.specs.Prelude.{◌≡◌, ◌+◌, ◌≤◌, ◌++◌, length};
ghost use Rattle.ghash.specs.Ghash.{block_of, ghash as ghash_of};

use crate::field::product;

/// The block that sixteen bytes stand for, the first byte the most significant.
pub fn load_block(bytes: &[u8; 16]) -> u128
    ensures { result ≡ block_of bytes.now }
{
    u128::from_be_bytes(*bytes)
}

// The block of a followed by t, filled up with zeros.
fn load_padded(a: &[u8], t: &[u8]) -> u128
    requires { length a.now + length t.now ≤ 16 }
    ensures { result ≡ block_of (a.now ++ t.now) }
{
    let mut block = [0; 16];
    let (front, back) = block.split_at_mut(a.len());
    front.copy_from_slice(a);
    back[..t.len()].copy_from_slice(t);
    load_block(&block)
}

/// GHASH under the key h, after the block y, of s filled up with zeros to whole blocks.
pub fn ghash(h: u128, y: u128, s: &[u8]) -> u128
    ensures { result ≡ ghash_of h y s.now }
{
    let (blocks, rest) = s.as_chunks::<16>();
    let mut sum = y;
    for block in blocks {
        sum = product(sum ^ load_block(block), h);
    }
    if !rest.is_empty() {
        sum = product(sum ^ load_padded(rest, &[]), h);
    }
    sum
}

/// GHASH of a followed by t, as one string. Not `ghash` of one after the other, since they may meet within a block.
pub fn ghash_joined(h: u128, y: u128, a: &[u8], t: &[u8]) -> u128
    ensures { result ≡ ghash_of h y (a.now ++ t.now) }
{
    let (whole, rest) = a.split_at(a.len() / 16 * 16);
    let front = ghash(h, y, whole);
    if rest.is_empty() {
        return ghash(h, front, t);
    }
    let (begin, end) = t.split_at(t.len().min(16 - rest.len()));
    let middle = product(front ^ load_padded(rest, begin), h);
    ghash(h, middle, end)
}
