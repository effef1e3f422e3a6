ghost use Rattle.std.specs.Prelude.{◌≡◌, ℕ, List, length};
ghost use Rattle.aead.specs.Seals.{Sealed, Opened, OpenedInto, key_of, sealing};

use crate::key::SecureKey;
use crate::nonce::Nonce;
use error::cipher::CipherError;

/// A cipher: authenticated encryption with associated data. It turns a key, a nonce, AAD and a plaintext into a ciphertext of the
/// plaintext's length and a tag of 16 bytes.
pub trait Aead {
    // of key, nonce, AAD and plaintext
    ghost sealed: { Self → List ℕ → List ℕ → List ℕ → List ℕ → Sealed };

    /// Seals the text where it lies, spends the nonce, and gives the tag.
    fn seal(&self, key: &SecureKey, nonce: Nonce, aad: &[u8], text: &mut [u8]) -> [u8; 16]
        ensures { record { text = text.new; tag = result } ≡ sealed self.now (key_of key.now) nonce.bytes aad.now text.old };

    /// Opens the text where it lies. A refusal leaves it as it was.
    fn open(
        &self,
        key: &SecureKey,
        nonce: &[u8; 12],
        aad: &[u8],
        text: &mut [u8],
        tag: &[u8; 16],
    ) -> Result<(), CipherError>
        ensures { Opened (sealed self.now (key_of key.now) nonce.now aad.now) (record { text = text.old; tag = tag.now }) text.old result text.new };

    /// Opens a borrowed text into the front of `out`, which is refused where it is shorter than the text. A refusal leaves `out` as it was.
    fn open_into(
        &self,
        key: &SecureKey,
        nonce: &[u8; 12],
        aad: &[u8],
        text: &[u8],
        tag: &[u8; 16],
        out: &mut [u8],
    ) -> Result<(), CipherError>
        ensures { OpenedInto (sealed self.now (key_of key.now) nonce.now aad.now) (record { text = text.now; tag = tag.now }) out.old result out.new };

    ghost keeps: { (s : Self) (k n a t : List ℕ) → length (sealed s k n a t).text ≡ length t };

    ghost tags: { (s : Self) (k n a t : List ℕ) → length (sealed s k n a t).tag ≡ 16 };

    ghost one: { (s : Self) (k n a t u : List ℕ) → sealed s k n a t ≡ sealed s k n a u → t ≡ u };
}

/// A cipher under a key in use: what texts are sealed and opened with.
#[derive_where(Clone, Copy)]
pub struct KeyedCipher<'k, A> {
    pub cipher: &'k A,
    pub key: &'k SecureKey<'k>,
}

impl<A: Aead> KeyedCipher<'_, A> {
    /// Seals the text where it lies, spends the nonce, and gives the tag.
    pub fn seal(&self, nonce: Nonce, aad: &[u8], text: &mut [u8]) -> [u8; 16]
        ensures { record { text = text.new; tag = result } ≡ sealing A.sealed self.now nonce.bytes aad.now text.old }
    {
        self.cipher.seal(self.key, nonce, aad, text)
    }

    /// Opens the text where it lies. A refusal leaves it as it was.
    pub fn open(
        &self,
        nonce: &[u8; 12],
        aad: &[u8],
        text: &mut [u8],
        tag: &[u8; 16],
    ) -> Result<(), CipherError>
        ensures { Opened (sealing A.sealed self.now nonce.now aad.now) (record { text = text.old; tag = tag.now }) text.old result text.new }
    {
        self.cipher.open(self.key, nonce, aad, text, tag)
    }

    /// Opens a borrowed text into the front of `out`, which is refused where it is shorter than the text. A refusal leaves `out` as it was.
    pub fn open_into(
        &self,
        nonce: &[u8; 12],
        aad: &[u8],
        text: &[u8],
        tag: &[u8; 16],
        out: &mut [u8],
    ) -> Result<(), CipherError>
        ensures { OpenedInto (sealing A.sealed self.now nonce.now aad.now) (record { text = text.now; tag = tag.now }) out.old result out.new }
    {
        self.cipher.open_into(self.key, nonce, aad, text, tag, out)
    }
}
