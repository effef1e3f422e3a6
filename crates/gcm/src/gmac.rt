ghost use Rattle.std.specs.Prelude.{◌≡◌, [], ◌++◌};
ghost use Rattle.std.proofs.Math.Path.{refl};
ghost use Rattle.aes.specs.Aes.{aes};
ghost use Rattle.aes.proofs.Lengths.{length-aes};
ghost use Rattle.aead.specs.Seals.{Opened, key_of};
ghost use Rattle.gcm.specs.Gcm.{tag as tag_of, gmac as gmac_of, gmac};
ghost use Rattle.gcm.specs.Laws.{length-tag};
ghost use Rattle.gcm.specs.Macs.{gmac_one};

use crate::tag::{same, tag as tag_of};
use aead::aead::Aead;
use aead::key::SecureKey;
use aead::nonce::Nonce;
use aes::schedule::Schedule;
use ctr::gctr::Keystream;
use ctr::iv::Iv;
use error::cipher::CipherError;

/// GMAC: authentication alone. The text stays clear, and its tag is AES-GCM's for an empty text, with the text appended to the AAD.
#[derive(Clone, Copy)]
pub struct Gmac;

// The tag of the text with its AAD.
fn mac(key: &SecureKey, nonce: &[u8; 12], aad: &[u8], text: &[u8]) -> [u8; 16]
    ensures { result ≡ tag_of (aes (key_of key.now)) nonce.now (aad.now ++ text.now) [] }
{
    let schedule = Schedule::new(key.bytes());
    let keys = Keystream {
        schedule: &schedule,
        iv: Iv::from_bytes(nonce),
    };
    tag_of(keys, (aad, text), &[])
}

// Whether the text with its AAD has this tag.
fn check(
    key: &SecureKey,
    nonce: &[u8; 12],
    aad: &[u8],
    text: &[u8],
    tag: &[u8; 16],
) -> Result<(), CipherError>
    ensures { Opened (gmac_of (aes (key_of key.now)) nonce.now aad.now) (record { text = text.now; tag = tag.now }) text.now result text.now }
{
    let real = mac(key, nonce, aad, text);
    if !same(&real, tag) {
        return Err(CipherError::NotAuthentic);
    }
    Ok(())
}

impl Aead for Gmac {
    ghost sealed = { λ _ k n a t. gmac_of (aes k) n a t };

    ghost keeps = { unfold gmac in λ s k n a t. refl };

    ghost tags = { unfold gmac in λ s k n a t. length-tag (aes k) (length-aes k) n (a ++ t) [] };

    ghost one = { λ s k n a t u e. gmac_one (aes k) n a t u e };

    fn seal(&self, key: &SecureKey, nonce: Nonce, aad: &[u8], text: &mut [u8]) -> [u8; 16] {
        mac(key, &nonce.into_bytes(), aad, text)
    }

    fn open(
        &self,
        key: &SecureKey,
        nonce: &[u8; 12],
        aad: &[u8],
        text: &mut [u8],
        tag: &[u8; 16],
    ) -> Result<(), CipherError> {
        check(key, nonce, aad, text, tag)
    }

    fn open_into(
        &self,
        key: &SecureKey,
        nonce: &[u8; 12],
        aad: &[u8],
        text: &[u8],
        tag: &[u8; 16],
        out: &mut [u8],
    ) -> Result<(), CipherError> {
        let n = text.len();
        if out.len() < n {
            return Err(CipherError::MemoryTooSmall);
        }
        check(key, nonce, aad, text, tag)?;
        out[0..n].copy_from_slice(text);
        Ok(())
    }
}
