ghost use Rattle.std.specs.Prelude.{◌≡◌, ◌≤◌, ◌++◌, length, take, drop};
ghost use Rattle.aes.specs.Cipher.{xor_bytes};
ghost use Rattle.ctr.specs.Gctr.{gctr};
ghost use Rattle.ctr.specs.Keystreams.{keystream_of};

use crate::iv::Iv;
use aes::block::Block;
use aes::schedule::Schedule;

/// The keystream of a schedule and an IV.
#[derive(Clone, Copy)]
pub struct Keystream<'k> {
    pub schedule: &'k Schedule,
    pub iv: Iv,
}

/// Lays a block of the keystream over the front of a text.
pub fn xor_block(text: &mut [u8], block: &[u8; 16])
    ensures { text.new ≡ xor_bytes (take 16 text.old) block.now ++ drop 16 text.old }
{
    let n = text.len().min(16);
    // By index: after a loop over `iter_mut().zip(..)` a proof knows the slice's length alone.
    for (i, byte) in text[..n].iter_mut().enumerate() {
        *byte ^= block[i];
    }
}

impl Keystream<'_> {
    /// The block of the keystream at a counter: the cipher of the IV followed by the counter.
    pub fn block(self, counter: u32) -> [u8; 16]
        ensures { result ≡ keystream_of self.entry counter }
    {
        self.schedule
            .encrypt(Block {
                a: self.iv.a,
                b: self.iv.b,
                c: self.iv.c,
                d: counter,
            })
            .to_bytes()
    }

    /// Lays the keystream from `counter` on over the text.
    pub fn apply(self, counter: u32, text: &mut [u8])
        ensures { text.new ≡ gctr (keystream_of self.entry) counter text.old }
    {
        let mut count = counter;
        // By the place of each block: after `chunks_mut` a proof knows the slice's length alone.
        for at in (0..text.len()).step_by(16) {
            xor_block(&mut text[at..], &self.block(count));
            count = count.wrapping_add(1);
        }
    }

    /// The same from a borrowed text into the front of `out`.
    pub fn apply_into(self, counter: u32, text: &[u8], out: &mut [u8])
        requires { length text.now ≤ length out.old }
        ensures { out.new ≡ gctr (keystream_of self.entry) counter text.now ++ drop (length text.now) out.old }
    {
        let front = &mut out[..text.len()];
        front.copy_from_slice(text);
        self.apply(counter, front);
    }
}
