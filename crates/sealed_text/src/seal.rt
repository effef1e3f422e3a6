ghost use Rattle.aead.specs.Seals.{sealing};
ghost use Rattle.sealed_text.specs.Sealing.{TextSealed};

use crate::frame::{MAX_LENGTH, OVERHEAD};
use aead::aead::{Aead, KeyedCipher};
use aead::source::NonceSource;
use error::cipher::CipherError;

/// Seals a text under the next nonce into the front of `out`, as nonce, ciphertext and tag, and answers their length. Refused
/// where the text or the AAD is longer than `MAX_LENGTH`, then where `out` is too small, then where no nonce is left; a refusal
/// draws no nonce and leaves `out` as it was.
pub fn seal_text<A: Aead, S: NonceSource>(
    keyed: &KeyedCipher<'_, A>,
    nonces: &mut S,
    aad: &[u8],
    text: &[u8],
    out: &mut [u8],
) -> Result<usize, CipherError>
    ensures { TextSealed (sealing A.sealed keyed.now) aad.now text.now out.old (S.left nonces.old) result out.new (S.left nonces.new) }
{
    let n = text.len();
    if n > MAX_LENGTH || aad.len() > MAX_LENGTH {
        return Err(CipherError::OutsideLimits);
    }
    if out.len() < n + OVERHEAD {
        return Err(CipherError::MemoryTooSmall);
    }
    let nonce = nonces.draw()?;
    out[0..12].copy_from_slice(nonce.as_bytes());
    out[12..12 + n].copy_from_slice(text);
    let tag = keyed.seal(nonce, aad, &mut out[12..12 + n]);
    out[12 + n..n + OVERHEAD].copy_from_slice(&tag);
    Ok(n + OVERHEAD)
}
