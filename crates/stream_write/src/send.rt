ghost use Rattle.std.specs.Prelude.{◌≤◌, take, drop};
ghost use Rattle.aead.specs.Seals.{sealing};
ghost use Rattle.stream_write.specs.Calls.{state_of, size_of, block_by, Kept};
ghost use Rattle.stream_write.specs.Runs.{send_run, Outcome};

use crate::block::send_block;
use crate::phase::Phase;
use crate::writer::AesGcmFileWrite;
use aead::aead::{Aead, KeyedCipher};
use aead::source::NonceSource;
use error::stream::StreamError;
use layout::places::block_aad;
use layout::size::MAX_BLOCKS;
use sealed_text::frame::OVERHEAD;
use storage::sink::FileWrite;

impl AesGcmFileWrite {
    // Sends the first `held` bytes gathered as block `blocks`; a refusal poisons the writer.
    pub(crate) fn send<K: FileWrite, A: Aead, N: NonceSource>(
        &mut self,
        held: usize,
        blocks: u64,
        keyed: &KeyedCipher<'_, A>,
        sink: &mut K,
        nonces: &mut N,
    ) -> Result<(), StreamError>
        requires { held ≤ size_of self.old }
        ensures kept { Kept self.old self.new }
        ensures sent { Outcome (send_run (block_by (sealing A.sealed keyed.now) self.old) (take held (drop 12 self.old.block.items)) blocks (N.left nonces.old) (K.port sink.old)) result (state_of self.new) (N.left nonces.new) (K.port sink.new) }
    {
        // Poisoned, until the block is taken.
        self.phase = Phase::Poisoned;
        if blocks >= MAX_BLOCKS {
            return Err(StreamError::TooManyBlocks);
        }
        let i = blocks as u32;
        let aad = block_aad(&self.prefix, i)?;
        // With `[..n]` a proof knows nothing of what a write leaves in a `Vec`.
        let block = &mut self.block[0..held + OVERHEAD];
        send_block(block, i, &aad, keyed, sink, nonces)?;
        self.phase = Phase::Open(0, blocks + 1);
        Ok(())
    }
}
