//! Errors of storage, ciphers and streams: one enum for each layer, what each reports, and the conversions between layers.
#![tactic(auto)]

pub mod cipher;
pub mod storage;
pub mod stream;
