use crate::file::{Written, reader, write};
use aead::aead::KeyedCipher;
use aead::counter::CounterNonces;
use aead::key::{KeySize, SecureKey};
use gcm::aes_gcm::AesGcm;
use std::ops::Range;
use storage::source::MemorySource;
use stream_write::call::FileCall;

/// A short cargo list: 48 bytes.
const LIST: &[u8; 48] = b"REEFER 40FT 12A;TANK 20FT 03C;DRY 40FT HC 21B 7;";

/// Its block size: the list fills three blocks exactly.
const BLOCK_SIZE: u32 = 16;

fn print_text(rt: &HostRuntime, text: &[u8]) -> anyhow::Result<()> {
    for b in text {
        print!(rt; "{}", char::from(*b))?;
    }
    Ok(())
}

// What each call answered.
fn print_replies(rt: &HostRuntime, written: &Written) -> anyhow::Result<()> {
    for (i, reply) in written.replies.iter().enumerate() {
        match reply {
            Ok(()) => println!(rt; "  call {i}: done")?,
            Err(refusal) => println!(rt; "  call {i} is refused: {refusal}")?,
        }
    }
    Ok(())
}

// Reads a range of a file in memory, and prints what came.
fn print_read(
    rt: &HostRuntime,
    bytes: &[u8],
    range: Range<u64>,
    keyed: &KeyedCipher<'_, AesGcm>,
) -> anyhow::Result<()> {
    let reader = reader(rt.alloc(), BLOCK_SIZE, bytes.len())?;
    let mut out = [b'-'; 48];
    let mut block = [7u8; 44];
    let source = MemorySource::new(bytes);
    let start = range.start;
    let end = range.end;
    match reader.read(range, &mut out, &mut block, keyed, &source) {
        Ok(()) => {
            print!(rt; "Bytes {start} to {end}: ")?;
            print_text(rt, &out)?;
        }
        Err(refusal) => {
            print!(rt; "Bytes {start} to {end} are refused: {refusal};")?;
            print!(rt; " zeros in the answer: {}", zeros(&out))?;
        }
    }
    println!(rt; "; block memory wiped: {}", zeros(&block) == 44)?;
    Ok(())
}

fn zeros(memory: &[u8]) -> usize {
    memory.iter().filter(|b| **b == 0).count()
}

// The same list on storage that takes the header and one block.
fn print_cut_off(rt: &HostRuntime, keyed: &KeyedCipher<'_, AesGcm>) -> anyhow::Result<()> {
    let mut nonces = CounterNonces::new([0; 4], 100);
    let calls = [
        FileCall::Write(LIST),
        FileCall::Write(b"; LATE 20FT"),
        FileCall::Close,
    ];
    let written = write(rt.alloc(), BLOCK_SIZE, 60, &calls, keyed, &mut nonces)?;
    let length = written.file.as_slice().len();
    println!(rt;
        "On storage of 60 bytes the second block is not taken; {length} bytes stand in it:"
    )?;
    print_replies(rt, &written)
}

// The same file with one bit of its second block changed: other blocks still open.
fn print_damaged(
    rt: &HostRuntime,
    bytes: &[u8],
    keyed: &KeyedCipher<'_, AesGcm>,
) -> anyhow::Result<()> {
    let mut damaged = Vec::from_slice(rt.alloc(), bytes)?;
    if let Some(b) = damaged.get_mut(70) {
        *b ^= 1;
    }
    println!(rt; "With one bit of block 1 changed:")?;
    print_read(rt, &damaged, 0..16, keyed)?;
    print_read(rt, &damaged, 10..20, keyed)?;
    print_read(rt, &damaged, 32..48, keyed)
}

/// One short list: written, read across a block border, cut off by its storage, and damaged.
pub fn list(rt: &HostRuntime) -> anyhow::Result<()> {
    let mut memory = [3u8; 32];
    let size = KeySize::of(32, memory.len())?;
    let key = SecureKey::new(&mut memory, size);
    let keyed = KeyedCipher {
        cipher: &AesGcm,
        key: &key,
    };
    let mut nonces = CounterNonces::new([0; 4], 0);
    let text: &[u8] = LIST;
    let calls = [
        FileCall::Write(&text[0..20]),
        FileCall::Write(&text[20..48]),
        FileCall::Close,
        FileCall::Write(text),
    ];
    let written = write(rt.alloc(), BLOCK_SIZE, 1000, &calls, &keyed, &mut nonces)?;
    let length = written.file.as_slice().len();
    println!(rt;
        "A list of 48 bytes in blocks of 16, which it fills, makes a file of {length} bytes:"
    )?;
    print_replies(rt, &written)?;
    print_read(rt, written.file.as_slice(), 0..48, &keyed)?;
    print_read(rt, written.file.as_slice(), 10..20, &keyed)?;
    print_read(rt, written.file.as_slice(), 40..49, &keyed)?;
    print_cut_off(rt, &keyed)?;
    print_damaged(rt, written.file.as_slice(), &keyed)
}
