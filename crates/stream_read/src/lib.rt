//! The reader of encrypted files: it opens ranges of the plaintext, one block at a time, and single blocks.
#![tactic(auto)]

mod block;
pub mod making;
pub mod range;
pub mod reader;
pub mod single;
