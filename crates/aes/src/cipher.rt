ghost use Rattle.std.specs.Prelude.{◌≡◌, [], ◌∷◌, map};
ghost use Rattle.aes.specs.Field.{sbox};
ghost use Rattle.aes.specs.Words.{byte0, byte1, byte2, byte3, word_bytes};
ghost use Rattle.aes.specs.Cipher.{xor_bytes, mix_column, add_round_key, round, final_round, cipher};
ghost use Rattle.aes.specs.Blocks.{bytes_of};
ghost use Rattle.aes.specs.Schedules.{scheduled};

use crate::block::Block;
use crate::schedule::Schedule;
use crate::tables::{sub_and_mix_byte, sub_byte};

/// A column of a round, from the bytes that ShiftRows() brings into it and a word of the round key.
fn mixed_column(a: u8, b: u8, c: u8, d: u8, key: u32) -> u32
    ensures { word_bytes result ≡ xor_bytes (mix_column (sbox a) (sbox b) (sbox c) (sbox d)) (word_bytes key) }
{
    sub_and_mix_byte(a)
        ^ sub_and_mix_byte(b).rotate_right(8)
        ^ sub_and_mix_byte(c).rotate_right(16)
        ^ sub_and_mix_byte(d).rotate_right(24)
        ^ key
}

/// A column of the final round, which has no MixColumns().
fn final_column(a: u8, b: u8, c: u8, d: u8, key: u32) -> u32
    ensures { word_bytes result ≡ xor_bytes (sbox a ∷ sbox b ∷ sbox c ∷ sbox d ∷ []) (word_bytes key) }
{
    add_word(u32::from_be_bytes([a, b, c, d].map(sub_byte)), key)
}

fn add_word(word: u32, key: u32) -> u32
    ensures { word_bytes result ≡ xor_bytes (word_bytes word) (word_bytes key) }
{
    word ^ key
}

fn add_round_key(state: Block, key: Block) -> Block
    ensures { bytes_of result ≡ add_round_key (bytes_of state) (bytes_of key) }
{
    Block {
        a: add_word(state.a, key.a),
        b: add_word(state.b, key.b),
        c: add_word(state.c, key.c),
        d: add_word(state.d, key.d),
    }
}

/// ShiftRows(), and then `column` of each column that it gives and of a word of the round key.
fn shifted_round<F: Fn(u8, u8, u8, u8, u32) -> u32>(column: F, state: Block, key: Block) -> Block
    requires { F.IsAlwaysCallable column }
    ensures a { F.post column (byte0 state.a) (byte1 state.b) (byte2 state.c) (byte3 state.d) key.a result.a }
    ensures b { F.post column (byte0 state.b) (byte1 state.c) (byte2 state.d) (byte3 state.a) key.b result.b }
    ensures c { F.post column (byte0 state.c) (byte1 state.d) (byte2 state.a) (byte3 state.b) key.c result.c }
    ensures d { F.post column (byte0 state.d) (byte1 state.a) (byte2 state.b) (byte3 state.c) key.d result.d }
{
    let [a0, a1, a2, a3] = state.a.to_be_bytes();
    let [b0, b1, b2, b3] = state.b.to_be_bytes();
    let [c0, c1, c2, c3] = state.c.to_be_bytes();
    let [d0, d1, d2, d3] = state.d.to_be_bytes();
    Block {
        a: column(a0, b1, c2, d3, key.a),
        b: column(b0, c1, d2, a3, key.b),
        c: column(c0, d1, a2, b3, key.c),
        d: column(d0, a1, b2, c3, key.d),
    }
}

fn mixed_round(state: Block, key: Block) -> Block
    ensures { bytes_of result ≡ round (bytes_of key) (bytes_of state) }
{
    shifted_round(mixed_column, state, key)
}

fn final_round(state: Block, key: Block) -> Block
    ensures { bytes_of result ≡ final_round (bytes_of key) (bytes_of state) }
{
    shifted_round(final_column, state, key)
}

/// The cipher, under the round keys in their order: the first, those of the rounds between, and the last.
fn encrypt_under(first: Block, middle: &[Block], last: Block, input: Block) -> Block
    ensures { bytes_of result ≡ cipher (bytes_of first) (map bytes_of middle.now) (bytes_of last) (bytes_of input) }
{
    let mut state = add_round_key(input, first);
    for key in middle {
        state = mixed_round(state, *key);
    }
    final_round(state, last)
}

impl Schedule {
    /// The block encrypted.
    pub fn encrypt(&self, x: Block) -> Block
        ensures { bytes_of result ≡ scheduled self.now (bytes_of x) }
    {
        encrypt_under(
            self.keys[0],
            &self.keys[1..self.rounds],
            self.keys[self.rounds],
            x,
        )
    }
}
