ghost use Rattle.aead.specs.Seals.{sealing};
ghost use Rattle.sealed_text.specs.Opening.{TextOpened, SealedOpens};

use aead::aead::{Aead, KeyedCipher};
use error::cipher::CipherError;

/// Opens a sealed text into the front of `out` and answers the plaintext's length. Refused where `sealed` is too short for a nonce
/// and a tag, then where `out` is too small, then where no plaintext seals to these bytes; a refusal leaves `out` as it was.
pub fn open_text<A: Aead>(
    keyed: &KeyedCipher<'_, A>,
    aad: &[u8],
    sealed: &[u8],
    out: &mut [u8],
) -> Result<usize, CipherError>
    ensures answer { TextOpened (sealing A.sealed keyed.now) aad.now sealed.now out.old result out.new }
    ensures back { SealedOpens (sealing A.sealed keyed.now) aad.now sealed.now out.old result out.new }
{
    let short = CipherError::CiphertextTooShort;
    let (nonce, rest) = sealed.split_first_chunk::<12>().ok_or(short)?;
    let (text, tag) = rest.split_last_chunk::<16>().ok_or(short)?;
    keyed.open_into(nonce, aad, text, tag, out)?;
    Ok(text.len())
}
