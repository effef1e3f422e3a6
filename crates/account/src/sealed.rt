use crate::print::print_bytes;
use aead::aead::KeyedCipher;
use aead::counter::CounterNonces;
use aead::key::{KeySize, SecureKey};
use gcm::aes_gcm::AesGcm;
use sealed_text::open::open_text;
use sealed_text::seal::seal_text;

const ENTRY: &[u8; 20] = b"REEFER 40FT, BAY 12A";

const AAD: &[u8; 5] = b"cargo";

/// One entry of a list, sealed under a counter's nonce and opened again; and with one bit changed, refused.
pub fn entry(rt: &HostRuntime) -> anyhow::Result<()> {
    let mut memory = [9u8; 32];
    let size = KeySize::of(16, memory.len())?;
    let key = SecureKey::new(&mut memory, size);
    let keyed = KeyedCipher {
        cipher: &AesGcm,
        key: &key,
    };
    let mut nonces = CounterNonces::new([0; 4], 1);
    let mut sealed = [0u8; 48];
    let length = seal_text(&keyed, &mut nonces, AAD, ENTRY, &mut sealed)?;
    println!(rt; "An entry of 20 bytes is sealed to {length}:")?;
    print_bytes(rt, " ", &sealed)?;
    let mut text = [0u8; 20];
    let opened = open_text(&keyed, AAD, &sealed, &mut text)?;
    println!(rt;
        "It opens to the {opened} bytes that were sealed: {}.",
        text == *ENTRY
    )?;
    sealed[20] ^= 1;
    match open_text(&keyed, AAD, &sealed, &mut text) {
        Ok(_) => println!(rt; "With one bit changed it opens.")?,
        Err(refusal) => println!(rt; "With one bit changed it is refused: {refusal}.")?,
    }
    Ok(())
}
