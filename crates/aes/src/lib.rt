//! AES with keys of 128, 192 and 256 bits (FIPS 197): blocks, the schedule of a key's round keys, and the cipher under it.
#![tactic(auto)]

pub mod block;
mod cipher;
mod key_expansion;
pub mod schedule;
mod tables;
