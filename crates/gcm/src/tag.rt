ghost use Rattle.std.specs.Prelude.{◌≡◌, ◌+◌, ◌*◌, ◌^◌, ◌++◌, bit_or, bit_xor};
ghost use Rattle.std.specs.List.{fold, zip};
ghost use Rattle.aes.specs.Schedules.{scheduled};
ghost use Rattle.ctr.specs.Keystreams.{cipher_of, iv_of};
ghost use Rattle.gcm.specs.Gcm.{bits, hash as hash_of, subkey as subkey_of, tag as tag_of, masked as masked_of};
ghost use Rattle.gcm.specs.Tags.{Same};

use aes::block::Block;
use aes::schedule::Schedule;
use ctr::gctr::{Keystream, xor_block};
use ghash::field::product;
use ghash::hash::{ghash, ghash_joined, load_block};

// The block of the lengths of AAD and ciphertext in bits.
fn lengths(aad: usize, text: usize) -> u128
    ensures { result ≡ bits aad * 2 ^ 64 + bits text }
{
    (aad.wrapping_mul(8) as u128) << 64 | text.wrapping_mul(8) as u128
}

// The hash of AAD, which comes in two parts, ciphertext and their lengths.
fn hash(h: u128, aad: (&[u8], &[u8]), text: &[u8]) -> u128
    ensures { result ≡ hash_of h (aad.entry.0.now ++ aad.entry.1.now) text.now }
{
    let (front, back) = aad;
    let sum = ghash(h, ghash_joined(h, 0, front, back), text);
    let n = front.len().wrapping_add(back.len());
    product(sum ^ lengths(n, text.len()), h)
}

// The key of the hash: the cipher of the block of zeros.
fn subkey(schedule: &Schedule) -> u128
    ensures { result ≡ subkey_of (scheduled schedule.now) }
{
    let zero = Block {
        a: 0,
        b: 0,
        c: 0,
        d: 0,
    };
    load_block(&schedule.encrypt(zero).to_bytes())
}

// A hash under the first block of the keystream.
fn masked(keys: Keystream, hash: u128) -> [u8; 16]
    ensures { result ≡ masked_of (cipher_of keys.entry) (iv_of keys.entry) hash }
{
    let mut tag = hash.to_be_bytes();
    xor_block(&mut tag, &keys.block(1));
    tag
}

/// The tag of AAD, which comes in two parts, and ciphertext.
pub fn tag(keys: Keystream, aad: (&[u8], &[u8]), text: &[u8]) -> [u8; 16]
    ensures { result ≡ tag_of (cipher_of keys.entry) (iv_of keys.entry) (aad.entry.0.now ++ aad.entry.1.now) text.now }
{
    masked(keys, hash(subkey(keys.schedule), aad, text))
}

// The bits in which two tags differ, at whichever byte.
fn difference(a: &[u8; 16], b: &[u8; 16]) -> u8
    ensures { result ≡ fold (λ n p. bit_or n (bit_xor p.0 p.1)) 0 (zip a.now b.now) }
{
    a.iter().zip(b).fold(0, |bits, (x, y)| bits | (x ^ y))
}

/// Whether two tags are the same. All 16 bytes are read, wherever they differ.
pub fn same(a: &[u8; 16], b: &[u8; 16]) -> bool
    ensures { Same result a.now b.now }
{
    difference(a, b) == 0
}
