ghost use Rattle.std.specs.Prelude.{◌≤◌};

use crate::block::Block;

/// The round keys of a key.
#[derive(Drop)]
pub struct Schedule {
    /// The round keys, numbers 0 to `rounds`, in an array for the 15 of the longest keys. An `ArrayVec` would have to be filled one by one, and its
    /// length would need the same two facts.
    pub(crate) keys: [Block; 15],
    /// The number of rounds, Nr in FIPS 197: 10, 12 or 14.
    pub(crate) rounds: usize,
    ghost least: { 10 ≤ rounds },
    ghost most: { rounds ≤ 14 },
}
