ghost use Rattle.std.specs.Prelude.{◌≡◌, drop, Decides, MatchResult};
ghost use Rattle.aead.specs.Draws.{Distinct};
ghost use Rattle.aead.specs.Recorded.{TwelveAt, Twice, Unrecorded};
ghost use Rattle.aead.specs.Records.{drop_distinct, drop_twelve};

use crate::nonce::Nonce;
use crate::source::NonceSource;
use error::cipher::CipherError;
use std::alloc::Global;

// A place beside the list and no owning iterator: of a clone of one std promises the length alone.
/// The nonces of a recorded list, in its order.
#[derive(Drop)]
pub struct RecordedNonces {
    nonces: Vec<[u8; 12]>,
    next: usize,
    ghost different: { Distinct nonces.items },
    ghost twelve: { TwelveAt nonces.items },
}

impl RecordedNonces {
    /// The nonces of that list: refused where some nonce stands twice, and then where there is no memory.
    pub fn new(heap: Global, nonces: &[[u8; 12]]) -> Result<RecordedNonces, CipherError>
        ensures { MatchResult result (λ s. Distinct nonces.now × (drop s.next s.nonces.items ≡ nonces.now)) (λ e. Unrecorded nonces.now e) }
    {
        if any_twice(nonces) {
            return Err(CipherError::Duplicate);
        }
        let nonces = Vec::from_slice(heap, nonces)?;
        Ok(RecordedNonces { nonces, next: 0 })
    }
}

/// Whether two places of the list hold the same nonce.
fn any_twice(nonces: &[[u8; 12]]) -> bool
    ensures { Decides result (Twice nonces.now) }
{
    // By index: `contains` on the places before takes half as long again.
    for j in 0..nonces.len() {
        for i in 0..j {
            if nonces[i] == nonces[j] {
                return true;
            }
        }
    }
    false
}

impl NonceSource for RecordedNonces {
    ghost left = { λ s. drop s.next s.nonces.items };

    ghost different = { λ s. drop_distinct s.next s.nonces.items s.different };

    ghost twelve = { λ s. drop_twelve s.next s.nonces.items s.twelve };

    fn draw(&mut self) -> Result<Nonce, CipherError> {
        let bytes = *self
            .nonces
            .get(self.next)
            .ok_or(CipherError::NoncesExhausted)?;
        self.next += 1;
        Ok(Nonce { bytes })
    }
}
