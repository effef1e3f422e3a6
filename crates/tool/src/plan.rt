ghost use Rattle.std.specs.Prelude.{◌≡◌, Some};
ghost use Rattle.layout.specs.Format.{file_bytes, plain_bytes, block_count_of};
ghost use Rattle.tool.specs.Plans.{summary_text, block_text, planned, line_of};

use layout::layout::FileLayout;
use std::fmt;

/// What a file consists of, in a line.
#[derive(Clone, Copy)]
pub struct FileSummary {
    pub file_length: u64,
    pub blocks: u64,
    pub plaintext_length: u64,
}

/// A block's place in its file, in a line.
#[derive(Clone, Copy)]
pub struct BlockLine {
    pub number: u64,
    pub start: u64,
    pub length: u64,
    pub plaintext: u32,
}

impl fmt::Display for FileSummary {
    ghost output = { λ x. Some (summary_text x) };

    fn fmt<W: fmt::Write>(&self, f: &mut fmt::Formatter<W>) -> fmt::Result {
        write!(
            f,
            "{} bytes: a header, {} blocks, {} bytes of plaintext",
            self.file_length, self.blocks, self.plaintext_length
        )
    }
}

impl fmt::Display for BlockLine {
    ghost output = { λ x. Some (block_text x) };

    fn fmt<W: fmt::Write>(&self, f: &mut fmt::Formatter<W>) -> fmt::Result {
        write!(
            f,
            "block {} starts at byte {}, takes {} bytes, holds {}",
            self.number, self.start, self.length, self.plaintext
        )
    }
}

impl From<&FileLayout> for FileSummary {
    ghost from_gives = { λ x r. r ≡ planned x.now.size.bytes x.now.shape };

    fn from(layout: &FileLayout) -> FileSummary {
        FileSummary {
            file_length: layout.file_length(),
            blocks: layout.block_count(),
            plaintext_length: layout.plaintext_length(),
        }
    }
}

/// The line for block `number`, if the file has it.
pub fn block_line(layout: &FileLayout, number: u64) -> Option<BlockLine>
    ensures { result ≡ line_of layout.now.size.bytes layout.now.shape number }
{
    let span = layout.block(number)?;
    Some(BlockLine {
        number,
        start: span.start,
        length: span.plaintext as u64 + 28,
        plaintext: span.plaintext,
    })
}
