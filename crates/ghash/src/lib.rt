//! The product of blocks in GF(2^128), and GHASH, as in NIST SP 800-38D.
#![tactic(auto)]

pub mod field;
pub mod hash;
