//! Runs published vectors of AES, AES-GCM and GMAC, and damaged copies of the latter two that must be refused. The
//! vectors come on standard input, one to a line, in hexadecimal words, with `-` for no bytes:
//!
//!     cipher KEY PLAINTEXT CIPHERTEXT
//!     expansion KEY WORDS
//!     gcm KEY NONCE AAD PLAINTEXT CIPHERTEXT TAG
//!     gmac KEY NONCE AAD TEXT TEXT TAG
#![tactic(auto)]

mod block;
mod cases;
mod hex;

use crate::block::{check_block, check_expansion};
use crate::cases::{Case, check_case};
use crate::hex::hex;
use anyhow::anyhow;
use gcm::aes_gcm::AesGcm;
use gcm::gmac::Gmac;
use std::alloc::Global;
use std::io;

/// How many vectors of each kind agreed, and how many damaged copies were refused.
#[derive(Clone, Copy, Default)]
struct Tally {
    blocks: u32,
    expansions: u32,
    gcms: u32,
    gmacs: u32,
    damaged: u32,
}

fn check_line(heap: Global, line: &str, tally: &mut Tally) -> anyhow::Result<()> {
    let words = line.split(' ').collect::<Vec<&str>>(heap)?;
    match words.as_slice() {
        ["cipher", key, plaintext, ciphertext] => {
            check_block(
                &hex(heap, key)?,
                &hex(heap, plaintext)?,
                &hex(heap, ciphertext)?,
            )?;
            tally.blocks = tally.blocks.saturating_add(1);
        }
        ["expansion", key, keys] => {
            check_expansion(&hex(heap, key)?, &hex(heap, keys)?)?;
            tally.expansions = tally.expansions.saturating_add(1);
        }
        ["gcm", fields @ ..] => {
            let damaged = check_case(heap, &AesGcm, &Case::read(heap, fields)?)?;
            tally.gcms = tally.gcms.saturating_add(1);
            tally.damaged = tally.damaged.saturating_add(damaged);
        }
        ["gmac", fields @ ..] => {
            let damaged = check_case(heap, &Gmac, &Case::read(heap, fields)?)?;
            tally.gmacs = tally.gmacs.saturating_add(1);
            tally.damaged = tally.damaged.saturating_add(damaged);
        }
        _ => return Err(anyhow!("a line that is no vector")),
    }
    Ok(())
}

fn run(rt: &HostRuntime) -> anyhow::Result<()> {
    let heap = rt.alloc();
    let text = io::read_to_string(heap, rt.stdin())?;
    let mut tally = Tally::default();
    for line in text.as_str().lines() {
        check_line(heap, line, &mut tally)?;
    }
    let Tally {
        blocks,
        expansions,
        gcms,
        gmacs,
        damaged,
    } = tally;
    println!(rt; "AES, FIPS 197: {blocks} blocks agree")?;
    println!(rt; "AES, FIPS 197: {expansions} key expansions agree")?;
    println!(rt; "AES-GCM, 96-bit IVs: {gcms} cases seal and open")?;
    println!(rt; "GMAC: {gmacs} cases seal and open")?;
    println!(rt; "{damaged} damaged copies are refused")?;
    Ok(())
}

fn main(rt: HostRuntime) -> anyhow::Result<()> {
    run(&rt)
}
