ghost use Rattle.std.specs.Prelude.{◌≤◌, take, drop};
ghost use Rattle.aead.specs.Seals.{sealing};
ghost use Rattle.stream_write.specs.Calls.{state_of, size_of, block_by, Kept, Called};
ghost use Rattle.stream_write.specs.Runs.{ok, last_run, Ended, Wrote, Closes};

use crate::call::FileCall;
use crate::phase::Phase;
use crate::writer::AesGcmFileWrite;
use aead::aead::{Aead, KeyedCipher};
use aead::source::NonceSource;
use error::stream::StreamError;
use storage::sink::FileWrite;

// Sink and nonce source stay two parameters, since of a struct of two `&mut`s each contract would have to say that it keeps them.
// `kept` stands in each contract, since a type says what always holds, and not what a call leaves as it was.
impl AesGcmFileWrite {
    // Sends what is gathered, also nothing where no block was sent yet, and closes the sink.
    fn finish<K: FileWrite, A: Aead, N: NonceSource>(
        &mut self,
        held: usize,
        blocks: u64,
        keyed: &KeyedCipher<'_, A>,
        sink: &mut K,
        nonces: &mut N,
    ) -> Result<(), StreamError>
        requires { held ≤ size_of self.old }
        ensures kept { Kept self.old self.new }
        ensures ended { Ended (last_run (block_by (sealing A.sealed keyed.now) self.old) (ok (take held (drop 12 self.old.block.items)) blocks (N.left nonces.old) (K.port sink.old))) result (state_of self.new) (N.left nonces.new) (K.port sink.new) }
    {
        let due = held > 0 || blocks == 0;
        if due {
            self.send(held, blocks, keyed, sink, nonces)?;
        }
        sink.close();
        self.phase = Phase::Closed;
        Ok(())
    }

    /// A write or a close. Refused where the writer is closed (11) or poisoned (12), which changes nothing. A fresh writer first
    /// sends the header (13), also for no bytes. Every full block of bytes gathered is sent: refused where the file has
    /// 4,294,967,295 blocks already (3), where no nonce is left (15), and where the sink does not take it (14). A close sends what
    /// is gathered as a last block, an empty one only where no block was sent, and then closes the sink. A refusal by 3, 13, 14 or 15
    /// poisons the writer; the blocks sent before it stand in the sink.
    pub fn call<K: FileWrite, A: Aead, N: NonceSource>(
        &mut self,
        call: FileCall<'_>,
        keyed: &KeyedCipher<'_, A>,
        sink: &mut K,
        nonces: &mut N,
    ) -> Result<(), StreamError>
        ensures kept { Kept self.old self.new }
        ensures called { Called (size_of self.old) (block_by (sealing A.sealed keyed.now) self.old) call.entry (state_of self.old) (N.left nonces.old) (K.port sink.old) result (state_of self.new) (N.left nonces.new) (K.port sink.new) }
    {
        // What a writer is and what is asked of it, each pair in an arm: no step is handed in.
        match (self.phase, call) {
            (Phase::Closed, _) => Err(StreamError::WriterClosed),
            (Phase::Poisoned, _) => Err(StreamError::WriterPoisoned),
            (Phase::Fresh, FileCall::Write(bytes)) => {
                self.begin(sink)?;
                self.gather(bytes, keyed, sink, nonces)
            }
            (Phase::Open(_, _), FileCall::Write(bytes)) => self.gather(bytes, keyed, sink, nonces),
            (Phase::Fresh, FileCall::Close) => {
                self.begin(sink)?;
                self.finish(0, 0, keyed, sink, nonces)
            }
            (Phase::Open(held, blocks), FileCall::Close) => {
                self.finish(held, blocks, keyed, sink, nonces)
            }
        }
    }

    /// Writes bytes: see `call`.
    pub fn write<K: FileWrite, A: Aead, N: NonceSource>(
        &mut self,
        bytes: &[u8],
        keyed: &KeyedCipher<'_, A>,
        sink: &mut K,
        nonces: &mut N,
    ) -> Result<(), StreamError>
        ensures kept { Kept self.old self.new }
        ensures wrote { Wrote (size_of self.old) (block_by (sealing A.sealed keyed.now) self.old) (state_of self.old) (N.left nonces.old) (K.port sink.old) bytes.now result (state_of self.new) (N.left nonces.new) (K.port sink.new) }
    {
        self.call(FileCall::Write(bytes), keyed, sink, nonces)
    }

    /// Ends the file: see `call`.
    pub fn close<K: FileWrite, A: Aead, N: NonceSource>(
        &mut self,
        keyed: &KeyedCipher<'_, A>,
        sink: &mut K,
        nonces: &mut N,
    ) -> Result<(), StreamError>
        ensures kept { Kept self.old self.new }
        ensures closes { Closes (size_of self.old) (block_by (sealing A.sealed keyed.now) self.old) (state_of self.old) (N.left nonces.old) (K.port sink.old) result (state_of self.new) (N.left nonces.new) (K.port sink.new) }
    {
        self.call(FileCall::Close, keyed, sink, nonces)
    }
}
