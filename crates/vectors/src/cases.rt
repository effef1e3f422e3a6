use crate::hex::{array, expect, hex};
use aead::aead::{Aead, KeyedCipher};
use aead::key::{KeySize, SecureKey};
use aead::recorded::RecordedNonces;
use aead::source::NonceSource;
use anyhow::anyhow;
use std::alloc::Global;

/// A sealed text: what was sealed, and what it was sealed to.
#[derive(Clone, Drop)]
pub(crate) struct Case {
    key: Vec<u8>,
    nonce: [u8; 12],
    aad: Vec<u8>,
    plaintext: Vec<u8>,
    ciphertext: Vec<u8>,
    tag: [u8; 16],
}

impl Case {
    pub(crate) fn read(heap: Global, fields: &[&str]) -> anyhow::Result<Case> {
        let [key, nonce, aad, plaintext, ciphertext, tag] = fields else {
            return Err(anyhow!("a case of another form"));
        };
        Ok(Case {
            key: hex(heap, key)?,
            nonce: array::<12>(&hex(heap, nonce)?)?,
            aad: hex(heap, aad)?,
            plaintext: hex(heap, plaintext)?,
            ciphertext: hex(heap, ciphertext)?,
            tag: array::<16>(&hex(heap, tag)?)?,
        })
    }
}

/// What one bit is flipped of in a damaged copy.
#[derive(Clone, Copy)]
enum Part {
    Tag(usize),
    Nonce,
    Key,
    Aad,
    Ciphertext,
}

/// Puts the key into key memory, and gives its size.
fn load(key: &[u8], memory: &mut [u8; 32]) -> anyhow::Result<KeySize> {
    let size = KeySize::of(key.len(), memory.len())?;
    memory[..key.len()].copy_from_slice(key);
    Ok(size)
}

/// The tag of the case's plaintext, which is sealed where `text` has it.
fn seal<A: Aead>(
    heap: Global,
    cipher: &A,
    case: &Case,
    text: &mut [u8],
) -> anyhow::Result<[u8; 16]> {
    let mut memory = [0u8; 32];
    let size = load(&case.key, &mut memory)?;
    let key = SecureKey::new(&mut memory, size);
    let keyed = KeyedCipher { cipher, key: &key };
    let mut nonces = RecordedNonces::new(heap, &[case.nonce])?;
    let nonce = nonces.draw()?;
    Ok(keyed.seal(nonce, &case.aad, text))
}

/// Whether the case opens, in place and into other memory alike; if so to its plaintext, and if not nothing changes.
fn opens<A: Aead>(heap: Global, cipher: &A, case: &Case) -> anyhow::Result<bool> {
    let mut memory = [0u8; 32];
    let size = load(&case.key, &mut memory)?;
    let key = SecureKey::new(&mut memory, size);
    let keyed = KeyedCipher { cipher, key: &key };
    let mut text = case.ciphertext.clone()?;
    let mut out = vec![in heap; 7u8; case.ciphertext.len()]?;
    let opened = keyed
        .open(&case.nonce, &case.aad, &mut text, &case.tag)
        .is_ok();
    let copied = keyed
        .open_into(
            &case.nonce,
            &case.aad,
            &case.ciphertext,
            &case.tag,
            &mut out,
        )
        .is_ok();
    expect(opened == copied, "the two ways of opening differ")?;
    if opened {
        expect(text == case.plaintext, "opened to another plaintext")?;
        expect(out == case.plaintext, "opened into another plaintext")?;
    } else {
        expect(text == case.ciphertext, "a refusal changed the text")?;
        expect(out.iter().all(|b| *b == 7), "a refusal changed the memory")?;
    }
    Ok(opened)
}

/// Flips one bit of a byte, and says whether there is one.
fn flip(bytes: &mut [u8], at: usize) -> bool {
    bytes.get_mut(at).map(|b| *b ^= 1).is_some()
}

/// One bit of a part flipped. False where the part has no such byte.
fn damage(case: &mut Case, part: Part) -> bool {
    match part {
        Part::Tag(at) => flip(&mut case.tag, at),
        Part::Nonce => flip(&mut case.nonce, 11),
        Part::Key => flip(&mut case.key, 0),
        Part::Aad => flip(&mut case.aad, 0),
        Part::Ciphertext => flip(&mut case.ciphertext, 0),
    }
}

/// Seals and opens the case, and sees that damaged copies are refused; gives how many there were.
pub(crate) fn check_case<A: Aead>(heap: Global, cipher: &A, case: &Case) -> anyhow::Result<u32> {
    let mut text = case.plaintext.clone()?;
    let tag = seal(heap, cipher, case, &mut text)?;
    expect(text == case.ciphertext, "sealed to another ciphertext")?;
    expect(tag == case.tag, "sealed with another tag")?;
    expect(opens(heap, cipher, case)?, "does not open")?;
    let others = [Part::Nonce, Part::Key, Part::Aad, Part::Ciphertext];
    let mut damaged = 0u32;
    for part in (0..16).map(Part::Tag).chain(others) {
        let mut copy = case.clone()?;
        if damage(&mut copy, part) {
            expect(!opens(heap, cipher, &copy)?, "a damaged copy opens")?;
            damaged = damaged.saturating_add(1);
        }
    }
    Ok(damaged)
}
