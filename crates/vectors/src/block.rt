use crate::hex::{array, expect};
use aes::block::Block;
use aes::schedule::Schedule;
use anyhow::anyhow;

pub(crate) fn check_block(key: &[u8], plaintext: &[u8], ciphertext: &[u8]) -> anyhow::Result<()> {
    let block = Schedule::new(key).encrypt(Block::from_bytes(&array::<16>(plaintext)?));
    expect(
        block.to_bytes() == array::<16>(ciphertext)?,
        "a block is encrypted otherwise",
    )
}

/// Whether the round keys are these, and no more.
pub(crate) fn check_expansion(key: &[u8], keys: &[u8]) -> anyhow::Result<()> {
    let schedule = Schedule::new(key);
    let (keys, _) = keys.as_chunks::<16>();
    for (r, key) in keys.iter().enumerate() {
        let round_key = schedule
            .round_key(r)
            .ok_or_else(|| anyhow!("too few round keys"))?;
        expect(round_key.to_bytes() == *key, "a round key differs")?;
    }
    expect(
        schedule.round_key(keys.len()).is_none(),
        "too many round keys",
    )
}
