ghost use Rattle.std.specs.Prelude.{◌≡◌, ◌<◌, is_ok, IfOk};

use anyhow::anyhow;
use std::alloc::Global;

fn digit(b: u8) -> anyhow::Result<u8>
    ensures { IfOk result (λ d. d < 16) }
{
    match b {
        b'0'..=b'9' => Ok(b - b'0'),
        b'a'..=b'f' => Ok(b - b'a' + 10),
        _ => Err(anyhow!("no hexadecimal digit")),
    }
}

fn byte(high: u8, low: u8) -> anyhow::Result<u8> {
    Ok(digit(high)? * 16 + digit(low)?)
}

/// The bytes that a word writes.
pub(crate) fn hex(heap: Global, word: &str) -> anyhow::Result<Vec<u8>> {
    let mut bytes = Vec::new(heap);
    if word == "-" {
        return Ok(bytes);
    }
    let (pairs, _) = word.as_bytes().as_chunks::<2>();
    for [high, low] in pairs {
        bytes.push(byte(*high, *low)?)?;
    }
    Ok(bytes)
}

/// Bytes that are exactly N.
pub(crate) fn array<const N: usize>(bytes: &[u8]) -> anyhow::Result<[u8; N]> {
    <[u8; N]>::try_from(bytes).map_err(|_| anyhow!("a word of another length"))
}

pub(crate) fn expect(holds: bool, otherwise: &str) -> anyhow::Result<()>
    ensures { is_ok result ≡ holds }
{
    if holds {
        Ok(())
    } else {
        Err(anyhow!("{otherwise}"))
    }
}
