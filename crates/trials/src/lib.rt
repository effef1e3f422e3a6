//! The trial table: small cases with the answers that they must have, proved to hold in one computed statement.
#![tactic(auto)]

ghost use Rattle.std.specs.Prelude.{◌≡◌, true, length};
ghost use Rattle.trials.specs.Trials.{trials, all_hold};

/// How many rows the trial table has. Every row holds.
pub fn trial_count() -> usize
    ensures rows { result ≡ length trials }
    ensures hold { all_hold trials ≡ true }
{
    10
}
