use crate::plan::BLOCK_SIZE;
use layout::size::BlockSize;
use storage::limit::Limit;
use storage::memory::MemoryFile;
use storage::sink::FileWrite;

/// A memory under a limit, which takes a header and has no room for a block after it.
pub fn full(rt: &HostRuntime) -> anyhow::Result<()> {
    let mut file = MemoryFile::new(rt.alloc(), 64)?;
    let mut limit = Limit::new(&mut file, 40);
    limit.write(&BlockSize::new(BLOCK_SIZE)?.header())?;
    match limit.write(&[0; 48]) {
        Ok(()) => println!(rt; "Under a limit of 40 bytes a memory takes a header and 48 bytes.")?,
        Err(refusal) => {
            println!(rt;
                "Under a limit of 40 bytes a memory takes a header and no 48 bytes more: {refusal}."
            )?
        }
    }
    let taken = file.as_slice().len();
    println!(rt; "It still holds {taken} bytes.")?;
    Ok(())
}
