//! Counter mode (GCTR of NIST SP 800-38D) under AES: the keystream of a 96-bit IV, laid over bytes.
#![tactic(auto)]

pub mod gctr;
pub mod iv;
