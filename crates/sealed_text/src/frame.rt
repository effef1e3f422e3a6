/// The bytes of a sealed text besides its ciphertext: a nonce of 12 and a tag of 16.
pub const OVERHEAD: usize = 28;

/// The most bytes that a text or its AAD may have.
pub const MAX_LENGTH: usize = 4_294_967_267;
