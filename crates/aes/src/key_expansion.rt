ghost use Rattle.std.specs.Prelude.{◌≡◌, ℕ, ◌+◌, ◌-◌, ◌*◌, ◌/◌, ◌<◌, ◌≤◌, List, length, take, slice_index_or};
ghost use Rattle.aes.specs.KeyExpansion.{sub_word, rot_word, next_word, expand, key_length, key_word, key_words, expansion, round_key};
ghost use Rattle.aes.specs.Aes.{aes};
ghost use Rattle.aes.specs.Blocks.{bytes_of, zero_block};
ghost use Rattle.aes.specs.Schedules.{key_bytes, key_at, scheduled};

use crate::block::Block;
use crate::schedule::Schedule;
use crate::tables::{round_constant, sub_byte};
use std::array;

fn sub_word(word: u32) -> u32
    ensures { result ≡ sub_word word }
{
    u32::from_be_bytes(word.to_be_bytes().map(sub_byte))
}

fn rot_word(word: u32) -> u32
    ensures { result ≡ rot_word word }
{
    let [b0, b1, b2, b3] = word.to_be_bytes();
    u32::from_be_bytes([b1, b2, b3, b0])
}

/// Word i of the expansion, from the word before it and the one nk places before it.
fn next_word(nk: usize, i: usize, before: u32, back: u32) -> u32
    requires { (4 ≤ nk) × ((nk ≤ i) × (i / nk ≤ 10)) }
    ensures { result ≡ next_word nk i before back }
{
    if i % nk == 0 {
        back ^ (sub_word(rot_word(before)) ^ round_constant(i / nk))
    } else if nk > 6 && i % nk == 4 {
        back ^ sub_word(before)
    } else {
        back ^ before
    }
}

fn key_word(key: &[u8], i: usize) -> u32
    requires { i < 8 }
    ensures { result ≡ key_word key.now i }
{
    u32::from_be_bytes(array::from_fn(|j| key.get(i * 4 + j).copied().unwrap_or(0)))
}

/// The words of a key, and zeros after them.
fn key_words(key: &[u8], nk: usize) -> [u32; 60]
    requires { nk ≤ 8 }
    ensures { take nk result ≡ key_words key.now nk }
{
    array::from_fn(|i| if i < nk { key_word(key, i) } else { 0 })
}

/// The expansion of a key of nk words: the first 4 (nk + 7) words of the result.
fn expand_key(key: &[u8], nk: usize) -> [u32; 60]
    requires { (4 ≤ nk) × (nk ≤ 8) }
    ensures { take (4 * (nk + 7)) result ≡ expand nk (4 * (nk + 7) - nk) (key_words key.now nk) }
{
    let mut words = key_words(key, nk);
    let end = 4 * (nk + 7);
    // By index, since each word is made of two words that stand before it in the same array.
    for i in nk..end {
        words[i] = next_word(nk, i, words[i - 1], words[i - nk]);
    }
    words
}

fn round_keys(words: &[u32; 60]) -> [Block; 15]
    ensures { (i : ℕ) → i < 15 → bytes_of (slice_index_or result i zero_block) ≡ round_key words.now i }
{
    array::from_fn(|i| Block {
        a: words[i * 4],
        b: words[i * 4 + 1],
        c: words[i * 4 + 2],
        d: words[i * 4 + 3],
    })
}

/// Nk, the length of a key in words, from its length in bytes.
fn key_length(bytes: usize) -> usize
    ensures value { result ≡ key_length bytes }
    ensures least { 4 ≤ result }
    ensures most { result ≤ 8 }
{
    match bytes {
        0..24 => 4,
        24..32 => 6,
        _ => 8,
    }
}

impl Schedule {
    /// The schedule of a key of 16, 24 or 32 bytes, which every caller hands in. So that there is an answer for any
    /// other length, a key under 24 bytes counts as 16, one under 32 as 24, and a longer one as 32; missing bytes
    /// count as 0.
    pub fn new(key: &[u8]) -> Schedule
        ensures rounds { result.rounds ≡ key_length (length key.now) + 6 }
        ensures expands { (i : ℕ) → i ≤ result.rounds → key_bytes result i ≡ round_key (expansion key.now) i }
        ensures encrypts { (x : List ℕ) → scheduled result x ≡ aes key.now x }
    {
        let nk = key_length(key.len());
        let keys = round_keys(&expand_key(key, nk));
        Schedule {
            keys,
            rounds: nk + 6,
        }
    }

    /// A round key, counted from 0; none past the last.
    pub fn round_key(&self, number: usize) -> Option<Block>
        ensures { result ≡ key_at self.now number }
    {
        self.keys[..=self.rounds].get(number).copied()
    }
}
