//! Where the bytes of a file go and come from: sinks, sources, memories, limits and windows.
#![tactic(auto)]

pub mod limit;
pub mod memory;
pub mod one_memory;
pub mod sink;
pub mod source;
pub mod transfer;
pub mod two_memories;
pub mod window;
