ghost use Rattle.std.specs.Prelude.{ℕ, List};
ghost use Rattle.aead.specs.Draws.{Distinct, Twelve, Drawn};

use crate::nonce::Nonce;
use error::cipher::CipherError;

/// Where nonces come from.
pub trait NonceSource {
    // the nonces that it will still give, in their order
    ghost left: { Self → List (List ℕ) };

    /// The first nonce that is left; refused exactly where none is.
    fn draw(&mut self) -> Result<Nonce, CipherError>
        ensures { Drawn (left self.old) result (left self.new) };

    ghost different: { (s : Self) → Distinct (left s) };

    ghost twelve: { (s : Self) → Twelve (left s) };
}
