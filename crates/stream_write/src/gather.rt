ghost use Rattle.std.specs.Prelude.{◌≡◌, ℕ, ◌<◌, true, List, length};
ghost use Rattle.aead.specs.Seals.{sealing};
ghost use Rattle.stream_write.specs.Calls.{state_of, size_of, block_by, Kept};
ghost use Rattle.stream_write.specs.Runs.{push_bytes, run_of, Gathered, Outcome, begin_run};
ghost use Rattle.stream_write.specs.Writers.{is_open};

use crate::phase::Phase;
use crate::writer::AesGcmFileWrite;
use aead::aead::{Aead, KeyedCipher};
use aead::source::NonceSource;
use error::stream::StreamError;
use storage::sink::FileWrite;

impl AesGcmFileWrite {
    // Sends the header; a refusal poisons the writer.
    pub(crate) fn begin<K: FileWrite>(&mut self, sink: &mut K) -> Result<(), StreamError>
        ensures kept { Kept self.old self.new }
        ensures begun { (l : List (List ℕ)) → Outcome (begin_run (size_of self.old) l (K.port sink.old)) result (state_of self.new) l (K.port sink.new) }
    {
        // Poisoned, until the header is taken.
        self.phase = Phase::Poisoned;
        sink.write(&self.size.header())
            .map_err(StreamError::HeaderNotTaken)?;
        self.phase = Phase::Open(0, 0);
        Ok(())
    }

    // Takes in as many bytes as the block has room for, and sends it once it is full.
    fn gather_some<K: FileWrite, A: Aead, N: NonceSource>(
        &mut self,
        bytes: &[u8],
        keyed: &KeyedCipher<'_, A>,
        sink: &mut K,
        nonces: &mut N,
    ) -> Result<usize, StreamError>
        requires phase_value { is_open self.old.phase ≡ true }
        requires bytes_nonzero { 0 < length bytes.now }
        ensures kept { Kept self.old self.new }
        ensures gathered { Gathered (push_bytes (size_of self.old) (block_by (sealing A.sealed keyed.now) self.old)) (run_of (state_of self.old) (N.left nonces.old) (K.port sink.old)) bytes.now result self.new.phase (state_of self.new) (N.left nonces.new) (K.port sink.new) }
    {
        let Phase::Open(held, blocks) = self.phase else {
            return Ok(0);
        };
        let size = self.size.plaintext() as usize;
        let n = bytes.len().min(size - held);
        let from = 12 + held;
        self.block[from..from + n].copy_from_slice(&bytes[..n]);
        if held + n < size {
            self.phase = Phase::Open(held + n, blocks);
        } else {
            self.send(held + n, blocks, keyed, sink, nonces)?;
        }
        Ok(n)
    }

    // Takes in all the bytes; a refusal poisons the writer.
    pub(crate) fn gather<K: FileWrite, A: Aead, N: NonceSource>(
        &mut self,
        bytes: &[u8],
        keyed: &KeyedCipher<'_, A>,
        sink: &mut K,
        nonces: &mut N,
    ) -> Result<(), StreamError>
        requires { is_open self.old.phase ≡ true }
        ensures kept { Kept self.old self.new }
        ensures gathered { Outcome (push_bytes (size_of self.old) (block_by (sealing A.sealed keyed.now) self.old) (run_of (state_of self.old) (N.left nonces.old) (K.port sink.old)) bytes.now) result (state_of self.new) (N.left nonces.new) (K.port sink.new) }
    {
        let mut rest = bytes;
        while !rest.is_empty() {
            let n = self.gather_some(rest, keyed, sink, nonces)?;
            rest = &rest[n..];
        }
        Ok(())
    }
}
