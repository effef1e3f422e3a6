ghost use Rattle.std.specs.Prelude.{◌≡◌};

/// Twelve bytes for one sealing. Only a draw from a nonce source yields one. It is neither `Copy` nor `Clone` nor `Drop`, so that
/// the check rejects a program that spends one on two texts or lets one go.
pub struct Nonce {
    pub(crate) bytes: [u8; 12],
}

impl Nonce {
    /// The nonce's bytes, to be written beside the text that it will be spent on.
    pub fn as_bytes(&self) -> &[u8; 12]
        ensures { result.now ≡ self.now.bytes }
    {
        &self.bytes
    }

    /// Spends the nonce.
    pub fn into_bytes(self) -> [u8; 12]
        ensures { result ≡ self.bytes }
    {
        let Nonce { bytes } = self;
        bytes
    }
}
