//! What everything that encrypts is generic over: nonces and their sources, keys in use, and ciphers.
#![tactic(auto)]

pub mod aead;
pub mod counter;
pub mod key;
pub mod nonce;
pub mod recorded;
pub mod source;
