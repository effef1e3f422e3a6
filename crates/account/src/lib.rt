//! An account of one task from beginning to end: an encrypted cargo list, planned, sealed, stored, written, read, damaged and cut off, with what
//! the library answers each time. Asked nothing, `ags1` prints the plan, the sealed entry and the full storage.
#![tactic(auto)]

pub mod every;
pub mod file;
pub mod full;
pub mod list;
pub mod plan;
pub mod print;
pub mod sealed;

/// Prints the account, but for the full storage, which is `full`.
pub fn account(rt: &HostRuntime) -> anyhow::Result<()> {
    plan::plan(rt)?;
    sealed::entry(rt)?;
    list::list(rt)?;
    every::every(rt)
}
