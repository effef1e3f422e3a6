//! The writer of encrypted files: it gathers plaintext, seals it block by block and hands the blocks to a sink.
#![tactic(auto)]

pub mod block;
pub mod call;
pub mod calls;
pub mod ends;
pub mod gather;
pub mod phase;
pub mod send;
pub mod writer;
