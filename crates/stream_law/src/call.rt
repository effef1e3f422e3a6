ghost use Rattle.std.specs.Prelude.{◌≡◌, ℕ, List};
ghost use Rattle.aead.specs.Seals.{sealing};
ghost use Rattle.stream_write.specs.Calls.{state_of, size_of, block_by, Kept};
ghost use Rattle.stream_law.specs.Deeds.{bytes_of, is_closed, closes};
ghost use Rattle.stream_law.specs.Files.{Holds, Does};

use aead::aead::{Aead, KeyedCipher};
use aead::source::NonceSource;
use error::stream::StreamError;
use storage::sink::FileWrite;
use stream_write::call::FileCall;
use stream_write::writer::AesGcmFileWrite;

/// A write or a close, with what it does to a file of which anything was written before, under any nonces.
pub fn call<K: FileWrite, A: Aead, N: NonceSource>(
    writer: &mut AesGcmFileWrite,
    call: FileCall<'_>,
    keyed: &KeyedCipher<'_, A>,
    sink: &mut K,
    nonces: &mut N,
) -> Result<(), StreamError>
    ensures kept { Kept writer.old writer.new }
    ensures shut { is_closed (state_of writer.new) ≡ closes call.entry result (is_closed (state_of writer.old)) }
    ensures does { (t : List ℕ) (ns : List (List ℕ)) → Holds (size_of writer.old) (block_by (sealing A.sealed keyed.now) writer.old) t ns (state_of writer.old) (K.port sink.old) → Does (size_of writer.old) (block_by (sealing A.sealed keyed.now) writer.old) t ns (N.left nonces.old) (bytes_of call.entry) result (state_of writer.new) (N.left nonces.new) (K.port sink.new) }
{
    writer.call(call, keyed, sink, nonces)
}
