//! One sealed text, framed as a block of an AGS1 file: a nonce of 12 bytes, the ciphertext, a tag of 16 bytes. It is put into memory that the caller
//! lends, and its length answered, since nothing here allocates.
#![tactic(auto)]

pub mod frame;
pub mod open;
pub mod seal;
