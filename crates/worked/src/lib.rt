//! Worked examples of FIPS 197 and of the GCM specification, computed from the definitions that the ciphers are proved equal to.
#![tactic(auto)]

ghost use Rattle.std.specs.Prelude.{◌≡◌};
ghost use Rattle.worked.specs.Worked.{Worked};

/// How many worked examples there are. All of them hold.
pub fn worked_examples() -> usize
    ensures count { result ≡ 14 }
    ensures hold { Worked }
{
    14
}
