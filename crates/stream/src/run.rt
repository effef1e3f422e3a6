ghost use Rattle.std.specs.Prelude.{◌≡◌, ℕ, List, [], length, IfOk, vec_len, MatchResult};
ghost use Rattle.aead.specs.Seals.{sealing};
ghost use Rattle.stream_write.specs.Calls.{state_of, size_of, block_by, Kept};
ghost use Rattle.stream_write.specs.Writers.{fresh};
ghost use Rattle.stream_law.specs.Deeds.{is_closed};
ghost use Rattle.stream_law.specs.Files.{Holds};
ghost use Rattle.stream.specs.Courses.{closed_from, Course};
ghost use Rattle.stream.specs.Laws.{FileLaw};

use aead::aead::{Aead, KeyedCipher};
use aead::source::NonceSource;
use error::stream::StreamError;
use std::alloc::{AllocError, Global};
use storage::sink::FileWrite;
use stream_law::call::call;
use stream_write::call::FileCall;
use stream_write::writer::AesGcmFileWrite;

/// Makes all of the calls on a writer, in their order, and gives what each answered; refused for want of memory alone, before the
/// first call.
///
/// Whatever was written before, under whichever nonces: writer and sink then hold that and the bytes of the unrefused writes after
/// it, and every nonce drawn went to a block that the sink took or refused.
///
/// From a fresh writer and an empty sink on, whatever the calls, refused ones among them: once a close has ended unrefused, the
/// sink is closed and holds the file of the bytes of the unrefused writes, under the nonces drawn for it in order, and a
/// reader reads it back as it was written.
pub fn run<K: FileWrite, A: Aead, N: NonceSource>(
    heap: Global,
    writer: &mut AesGcmFileWrite,
    calls: &[FileCall<'_>],
    keyed: &KeyedCipher<'_, A>,
    sink: &mut K,
    nonces: &mut N,
) -> Result<Vec<Result<(), StreamError>>, AllocError>
    ensures kept { Kept writer.old writer.new }
    ensures answers { MatchResult result (λ rs. vec_len rs ≡ length calls.now) (λ _. (writer.new ≡ writer.old) × (K.port sink.new ≡ K.port sink.old) × (N.left nonces.new ≡ N.left nonces.old)) }
    ensures shut { IfOk result (λ rs. is_closed (state_of writer.new) ≡ closed_from (is_closed (state_of writer.old)) calls.now rs.items) }
    ensures course { IfOk result (λ rs. (t : List ℕ) (ns : List (List ℕ)) → Holds (size_of writer.old) (block_by (sealing A.sealed keyed.now) writer.old) t ns (state_of writer.old) (K.port sink.old) → Course (size_of writer.old) (block_by (sealing A.sealed keyed.now) writer.old) t ns (N.left nonces.old) calls.now rs.items (state_of writer.new) (N.left nonces.new) (K.port sink.new)) }
    ensures law { IfOk result (λ rs. state_of writer.old ≡ fresh → (K.port sink.old).taken ≡ [] → FileLaw (sealing A.sealed keyed.now) writer.old.prefix.items (size_of writer.old) (N.left nonces.old) calls.now rs.items (N.left nonces.new) (K.port sink.new)) }
{
    // All memory is had before the first call, so that no answer is lost.
    let mut replies = Vec::with_capacity(heap, calls.len())?;
    for next in calls {
        replies.push_reserved(call(writer, *next, keyed, sink, nonces));
    }
    Ok(replies)
}
