use crate::print::print_bytes;
use layout::layout::FileLayout;
use layout::lengths::plaintext_length;
use layout::places::block_aad;
use layout::size::BlockSize;
use layout::spans::BlockOffset;
use tool::plan::{FileSummary, block_line};

const LIST_LENGTH: u64 = 2_500_000;

/// The block size of the long list.
pub(crate) const BLOCK_SIZE: u32 = 1_048_576;

const PREFIX: &[u8; 5] = b"cargo";

fn print_blocks(rt: &HostRuntime, layout: &FileLayout) -> anyhow::Result<()> {
    for line in (0..layout.block_count()).filter_map(|number| block_line(layout, number)) {
        println!(rt; "  {line}")?;
    }
    Ok(())
}

// Where one byte of the list is found, and what its block is sealed with.
fn print_place(rt: &HostRuntime, size: BlockSize, position: u64) -> anyhow::Result<()> {
    let BlockOffset { block, offset } = size.locate(position);
    println!(rt;
        "Byte {position} of the list lies in block {block}, at byte {offset} of its plaintext."
    )?;
    let aad = block_aad(PREFIX, u32::try_from(block)?)?;
    print_bytes(rt, "That block is sealed with the AAD", &aad)
}

fn print_cut(rt: &HostRuntime, file_length: u64) -> anyhow::Result<()> {
    match plaintext_length(file_length, BLOCK_SIZE) {
        Ok(n) => println!(rt; "A file of {file_length} bytes holds {n} bytes of plaintext.")?,
        Err(refusal) => println!(rt; "A file of {file_length} bytes is refused: {refusal}.")?,
    }
    Ok(())
}

/// The plan of a long list: lengths, blocks, one place, and lengths of no file.
pub fn plan(rt: &HostRuntime) -> anyhow::Result<()> {
    println!(rt;
        "A cargo list of {LIST_LENGTH} bytes, encrypted in blocks of {BLOCK_SIZE} bytes."
    )?;
    let layout = FileLayout::closed(LIST_LENGTH, BLOCK_SIZE)?;
    let whole = FileSummary::from(&layout);
    println!(rt; "The file has {whole}.")?;
    let size = BlockSize::new(BLOCK_SIZE)?;
    print_bytes(rt, "  header", &size.header())?;
    print_blocks(rt, &layout)?;
    print_place(rt, size, 2_000_000)?;
    print_cut(rt, layout.file_length())?;
    print_cut(rt, 2_097_244)?;
    print_cut(rt, 2_097_243)?;
    print_cut(rt, 7)
}
