//! The command-line tool without its input and output: what a user asks, and the lines that are printed.
#![tactic(auto)]

pub mod command;
pub mod parse;
pub mod plan;
