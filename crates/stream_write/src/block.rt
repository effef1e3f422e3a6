ghost use Rattle.std.specs.Prelude.{◌≡◌, ◌≤◌, length};
ghost use Rattle.aead.specs.Seals.{sealing};
ghost use Rattle.sealed_text.specs.Frame.{framed};
ghost use Rattle.stream_write.specs.Sends.{Sent, inner};

use aead::aead::{Aead, KeyedCipher};
use aead::nonce::Nonce;
use aead::source::NonceSource;
use error::stream::{StreamError, at_block};
use storage::sink::FileWrite;

// Seals the text between the places of nonce and tag, and puts both there.
fn frame_block<A: Aead>(block: &mut [u8], nonce: Nonce, aad: &[u8], keyed: &KeyedCipher<'_, A>)
    requires { 28 ≤ length block.old }
    ensures { block.new ≡ framed nonce.bytes (sealing A.sealed keyed.now nonce.bytes aad.now (inner block.old)) }
{
    let (front, rest) = block.split_first_chunk_mut::<12>().unwrap();
    let (text, back) = rest.split_last_chunk_mut::<16>().unwrap();
    *front = *nonce.as_bytes();
    *back = keyed.seal(nonce, aad, text);
}

// Seals the text between the places of nonce and tag under the next nonce, and hands all of it to the sink as block `i`.
pub(crate) fn send_block<K: FileWrite, A: Aead, N: NonceSource>(
    block: &mut [u8],
    i: u32,
    aad: &[u8],
    keyed: &KeyedCipher<'_, A>,
    sink: &mut K,
    nonces: &mut N,
) -> Result<(), StreamError>
    requires { 28 ≤ length block.old }
    ensures { Sent (N.left nonces.old) (K.port sink.old) (λ m. framed m (sealing A.sealed keyed.now m aad.now (inner block.old))) i result (N.left nonces.new) (K.port sink.new) }
{
    let nonce = at_block(nonces.draw(), i)?;
    frame_block(block, nonce, aad, keyed);
    at_block(sink.write(block), i)?;
    Ok(())
}
