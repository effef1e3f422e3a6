//! What a write or a close does to an encrypted file, whatever was written before it.
#![tactic(auto)]

pub mod call;
