//! Errors of key services and of the key manager, what each reports, and the conversions between layers.
#![tactic(auto)]

pub mod kms;
pub mod manager;
