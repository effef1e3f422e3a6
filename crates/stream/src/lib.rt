//! One encrypted file as a whole: any sequence of calls on it, and that what was closed reads as it was written.
#![tactic(auto)]

pub mod run;
