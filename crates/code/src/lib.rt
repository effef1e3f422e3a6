//! What every error tells: its code, the layer that refused, and a position; and the line that is printed of it.
#![tactic(auto)]

pub mod code;
pub mod report;
