//! AES-GCM and GMAC (NIST SP 800-38D), with IVs of 96 bits and tags of 16 bytes, as implementations of `Aead`.
#![tactic(auto)]

pub mod aes_gcm;
pub mod gmac;
pub mod tag;
