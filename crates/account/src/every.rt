use crate::file::{reader, write};
use aead::aead::KeyedCipher;
use aead::counter::CounterNonces;
use aead::key::{KeySize, SecureKey};
use gcm::aes_gcm::AesGcm;
use storage::source::MemorySource;
use stream_read::reader::AesGcmFileRead;
use stream_write::call::FileCall;

/// The longest plaintext, and the longest block: no file of them passes `ROOM` bytes.
const MOST: usize = 200;

const ROOM: usize = 8 + 29 * 201;

/// How many ranges were read, and how many of them were not what was written.
#[derive(Clone, Copy)]
pub struct Tally {
    pub ranges: u64,
    pub differ: u64,
}

// Every range of one file.
fn ranges(
    reader: &AesGcmFileRead,
    bytes: &[u8],
    text: &[u8],
    out: &mut [u8],
    block: &mut [u8],
    keyed: &KeyedCipher<'_, AesGcm>,
    tally: &mut Tally,
) {
    let source = MemorySource::new(bytes);
    let n = text.len().min(out.len());
    for start in 0..=n {
        for end in start..=n {
            let read = reader.read(start as u64..end as u64, out, block, keyed, &source);
            tally.ranges = tally.ranges.saturating_add(1);
            if read.is_err() || out[0..end - start] != text[start..end] {
                tally.differ = tally.differ.saturating_add(1);
            }
        }
    }
}

// Every length up to `most` at one block size: written in two parts, closed, and read back in every range.
fn lengths(
    rt: &HostRuntime,
    block_size: u32,
    most: usize,
    keyed: &KeyedCipher<'_, AesGcm>,
) -> anyhow::Result<Tally> {
    let mut tally = Tally {
        ranges: 0,
        differ: 0,
    };
    let mut nonces = CounterNonces::new([0, 0, 0, 1], 0);
    let mut text = [0u8; 200];
    for (k, b) in text.iter_mut().enumerate() {
        *b = (k * 7 % 251) as u8;
    }
    let mut out = vec![in rt.alloc(); 0u8; MOST]?;
    let mut block = vec![in rt.alloc(); 0u8; MOST + 28]?;
    for n in 0..=most.min(MOST) {
        let part = &text[..n];
        let (front, back) = part.split_at(n / 2);
        let calls = [
            FileCall::Write(front),
            FileCall::Write(back),
            FileCall::Close,
        ];
        let written = write(rt.alloc(), block_size, ROOM, &calls, keyed, &mut nonces)?;
        let bytes = written.file.as_slice();
        let reader = reader(rt.alloc(), block_size, bytes.len())?;
        ranges(
            &reader, bytes, part, &mut out, &mut block, keyed, &mut tally,
        );
    }
    Ok(tally)
}

/// Many lengths at several block sizes, each read back in every range.
pub fn every(rt: &HostRuntime) -> anyhow::Result<()> {
    let mut memory = [5u8; 32];
    let size = KeySize::of(16, memory.len())?;
    let key = SecureKey::new(&mut memory, size);
    let keyed = KeyedCipher {
        cipher: &AesGcm,
        key: &key,
    };
    for (block_size, most) in [(1u32, 40usize), (7, 80), (64, 200), (100, 200)] {
        let tally = lengths(rt, block_size, most, &keyed)?;
        let ranges = tally.ranges;
        let differ = tally.differ;
        println!(rt;
            "Every length from 0 to {most} in blocks of {block_size}: {ranges} ranges read back, {differ} differ."
        )?;
    }
    Ok(())
}
