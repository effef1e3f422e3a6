//! The layout of an AGS1 file: lengths, blocks and their places, the header, and the AAD of a block.
#![tactic(auto)]

pub mod block_size;
pub mod c_api;
pub mod layout;
pub mod lengths;
pub mod places;
pub mod shape;
pub mod size;
pub mod spans;
