ghost use Rattle.std.specs.Prelude.{◌≡◌, IfOk, IfErr};
ghost use Rattle.aes.specs.Aes.{aes};
ghost use Rattle.aes.proofs.Lengths.{length-aes};
ghost use Rattle.aead.specs.Seals.{Unauthentic};
ghost use Rattle.ctr.specs.Gctr.{gctr};
ghost use Rattle.ctr.specs.Keystreams.{cipher_of, iv_of, keystream_of};
ghost use Rattle.gcm.specs.Gcm.{gcm as gcm_of};
ghost use Rattle.gcm.specs.Laws.{gcm_keeps, gcm_tags, gcm_one};

use crate::tag::{same, tag as tag_of};
use aead::aead::Aead;
use aead::key::SecureKey;
use aead::nonce::Nonce;
use aes::schedule::Schedule;
use ctr::gctr::Keystream;
use ctr::iv::Iv;
use error::cipher::CipherError;

/// AES-GCM, its tag multiplied bit by bit.
#[derive(Clone, Copy)]
pub struct AesGcm;

// Whether the ciphertext with its AAD has this tag.
fn check(keys: Keystream, aad: &[u8], text: &[u8], tag: &[u8; 16]) -> Result<(), CipherError>
    ensures opens { IfOk result (λ _. gcm_of (cipher_of keys.entry) (iv_of keys.entry) aad.now (gctr (keystream_of keys.entry) 2 text.now) ≡ record { text = text.now; tag = tag.now }) }
    ensures refuses { IfErr result (λ e. Unauthentic (gcm_of (cipher_of keys.entry) (iv_of keys.entry) aad.now) (record { text = text.now; tag = tag.now }) e) }
{
    let real = tag_of(keys, (aad, &[]), text);
    if !same(&real, tag) {
        return Err(CipherError::NotAuthentic);
    }
    Ok(())
}

impl Aead for AesGcm {
    ghost sealed = { λ _ k n a t. gcm_of (aes k) n a t };

    ghost keeps = { λ s k n a t. gcm_keeps (aes k) (length-aes k) n a t };

    ghost tags = { λ s k n a t. gcm_tags (aes k) (length-aes k) n a t };

    ghost one = { λ s k n a t u e. gcm_one (aes k) (length-aes k) n a t u e };

    fn seal(&self, key: &SecureKey, nonce: Nonce, aad: &[u8], text: &mut [u8]) -> [u8; 16] {
        let schedule = Schedule::new(key.bytes());
        let keys = Keystream {
            schedule: &schedule,
            iv: Iv::from_bytes(&nonce.into_bytes()),
        };
        keys.apply(2, text);
        tag_of(keys, (aad, &[]), text)
    }

    fn open(
        &self,
        key: &SecureKey,
        nonce: &[u8; 12],
        aad: &[u8],
        text: &mut [u8],
        tag: &[u8; 16],
    ) -> Result<(), CipherError> {
        let schedule = Schedule::new(key.bytes());
        let keys = Keystream {
            schedule: &schedule,
            iv: Iv::from_bytes(nonce),
        };
        check(keys, aad, text, tag)?; // while the text is the ciphertext
        keys.apply(2, text);
        Ok(())
    }

    fn open_into(
        &self,
        key: &SecureKey,
        nonce: &[u8; 12],
        aad: &[u8],
        text: &[u8],
        tag: &[u8; 16],
        out: &mut [u8],
    ) -> Result<(), CipherError> {
        if out.len() < text.len() {
            return Err(CipherError::MemoryTooSmall);
        }
        let schedule = Schedule::new(key.bytes());
        let keys = Keystream {
            schedule: &schedule,
            iv: Iv::from_bytes(nonce),
        };
        check(keys, aad, text, tag)?;
        keys.apply_into(2, text, out);
        Ok(())
    }
}
