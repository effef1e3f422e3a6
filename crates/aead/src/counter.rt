ghost use Rattle.std.specs.Prelude.{◌≡◌, ℕ, ◌-◌, ◌^◌, ◌<◌, length, Some};
ghost use Rattle.aead.specs.Counters.{counted, counted_from};
ghost use Rattle.aead.specs.Counts.{from_distinct, from_twelve};

use crate::nonce::Nonce;
use crate::source::NonceSource;
use error::cipher::CipherError;

/// Nonces of four fixed bytes and eight counting bytes, most significant first. The last counting value is given, and then
/// nothing is left.
#[derive(Drop)]
pub struct CounterNonces {
    fixed: [u8; 4],
    next: Option<u64>,
    ghost four: { length fixed ≡ 4 },
    ghost fits: { (n : ℕ) → next ≡ Some n → n < 2 ^ 64 },
}

impl CounterNonces {
    /// The nonces with these fixed bytes and the counting values from `first` to the last one.
    pub fn new(fixed: [u8; 4], first: u64) -> CounterNonces
        ensures { counted_from result.fixed result.next ≡ counted fixed first (2 ^ 64 - first) }
    {
        CounterNonces {
            fixed,
            next: Some(first),
        }
    }
}

impl NonceSource for CounterNonces {
    ghost left = { λ s. counted_from s.fixed s.next };

    ghost different = { λ s. from_distinct s.fixed s.next };

    ghost twelve = { λ s. from_twelve s.fixed s.next s.four };

    fn draw(&mut self) -> Result<Nonce, CipherError> {
        let n = self.next.ok_or(CipherError::NoncesExhausted)?;
        self.next = n.checked_add(1);
        let mut bytes = [0; 12];
        bytes[..4].copy_from_slice(&self.fixed);
        bytes[4..].copy_from_slice(&n.to_be_bytes());
        Ok(Nonce { bytes })
    }
}
