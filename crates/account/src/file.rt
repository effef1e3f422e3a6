use aead::aead::KeyedCipher;
use aead::counter::CounterNonces;
use error::stream::StreamError;
use gcm::aes_gcm::AesGcm;
use std::alloc::Global;
use storage::memory::MemoryFile;
use stream::run::run;
use stream_read::reader::AesGcmFileRead;
use stream_write::call::FileCall;
use stream_write::writer::AesGcmFileWrite;

/// The AAD prefix of the account's files.
pub const PREFIX: &[u8; 5] = b"cargo";

/// What calls on a new file in memory left, and what each answered.
#[derive(Drop)]
pub struct Written {
    pub file: MemoryFile,
    pub replies: Vec<Result<(), StreamError>>,
}

/// A writer for that block size.
fn writer(heap: Global, block_size: u32) -> anyhow::Result<AesGcmFileWrite> {
    let prefix = Vec::from_slice(heap, PREFIX)?;
    let block = vec![in heap; 0u8; block_size as usize + 28]?;
    Ok(AesGcmFileWrite::new(block_size, prefix, block)?)
}

/// Makes the calls on a new file in memory with that room.
pub fn write(
    heap: Global,
    block_size: u32,
    room: usize,
    calls: &[FileCall<'_>],
    keyed: &KeyedCipher<'_, AesGcm>,
    nonces: &mut CounterNonces,
) -> anyhow::Result<Written> {
    let mut file = MemoryFile::new(heap, room)?;
    let mut writer = writer(heap, block_size)?;
    let replies = run(heap, &mut writer, calls, keyed, &mut file, nonces);
    let _block = writer.end();
    let replies = replies?;
    Ok(Written { file, replies })
}

/// A reader for a file of that length.
pub fn reader(heap: Global, block_size: u32, length: usize) -> anyhow::Result<AesGcmFileRead> {
    let prefix = Vec::from_slice(heap, PREFIX)?;
    Ok(AesGcmFileRead::new(length as u64, block_size, prefix)?)
}
