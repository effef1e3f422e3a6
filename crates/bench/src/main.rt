//! Times counter mode, GHASH and AES-GCM on sixteen texts of 1,048,576 bytes. With no arguments it prints what was computed, which is
//! always the same; with the argument `time` the microseconds that each took, which `tools/bench/run` sets beside other programs'.
#![tactic(auto)]

use aead::aead::KeyedCipher;
use aead::counter::CounterNonces;
use aead::key::{KeySize, SecureKey};
use aead::source::NonceSource;
use aes::schedule::Schedule;
use ctr::gctr::Keystream;
use ctr::iv::Iv;
use gcm::aes_gcm::AesGcm;
use ghash::hash::ghash;
use std::env;
use std::time::Instant;

const LENGTH: usize = 1_048_576;

const KEY: [u8; 32] = [
    0, 1, 2, 3, 4, 5, 6, 7, 8, 9, 10, 11, 12, 13, 14, 15, 16, 17, 18, 19, 20, 21, 22, 23, 24, 25,
    26, 27, 28, 29, 30, 31,
];

const AAD: [u8; 20] = [7; 20];

/// Text number `seed`.
fn fill(text: &mut [u8], seed: u8) {
    let mut k = seed;
    for b in text.iter_mut() {
        *b = k;
        k = k.wrapping_mul(5).wrapping_add(31);
    }
}

/// The last eight bytes that a kernel left, as a number to compare.
fn last(bytes: &[u8]) -> u64 {
    bytes
        .iter()
        .rev()
        .take(8)
        .fold(0, |n, b| n << 8 | u64::from(*b))
}

/// Runs a kernel on the sixteen texts; prints what came out or how long it took.
fn measure<F: FnMut(&mut [u8]) -> anyhow::Result<u64>>(
    rt: &HostRuntime,
    name: &str,
    timed: bool,
    mut kernel: F,
) -> anyhow::Result<()>
    requires { F.IsAlwaysCallable kernel }
{
    let mut text = vec![in rt.alloc(); 0u8; LENGTH]?;
    let mut sum = 0u64;
    let mut micros = 0u128;
    for seed in 0..16u8 {
        fill(&mut text, seed);
        let start = Instant::now(rt)?;
        let out = kernel(&mut text)?;
        micros = micros.saturating_add(start.elapsed(rt)?.as_micros());
        sum = sum.wrapping_mul(31).wrapping_add(out);
    }
    if timed {
        println!(rt; "{name} {sum:016x} {micros}")?;
    } else {
        println!(rt; "{name} {sum:016x}")?;
    }
    Ok(())
}

fn main(rt: HostRuntime) -> anyhow::Result<()> {
    let timed = env::args(&rt)?.count() > 1;
    measure(&rt, "ctr", timed, |text| {
        let schedule = Schedule::new(&KEY[0..16]);
        let keys = Keystream {
            schedule: &schedule,
            iv: Iv { a: 0, b: 0, c: 0 },
        };
        keys.apply(2, text);
        Ok(last(text))
    })?;
    measure(&rt, "ghash", timed, |text| {
        let sum = ghash(0x66e94bd4ef8a2c3b884cfa59ca342b2e, 0, text);
        Ok(last(&sum.to_be_bytes()))
    })?;
    let mut nonces = CounterNonces::new([0; 4], 0);
    measure(&rt, "gcm", timed, |text| {
        let mut memory = KEY;
        let key = SecureKey::new(&mut memory, KeySize::Bits128);
        let keyed = KeyedCipher {
            cipher: &AesGcm,
            key: &key,
        };
        let tag = keyed.seal(nonces.draw()?, &AAD, text);
        Ok(last(&tag))
    })
}
