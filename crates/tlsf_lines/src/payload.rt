ghost use Rattle.std.specs.Prelude.{◌≡◌};
ghost use Rattle.tlsf_lines.specs.Payloads;

use tlsf_calls::Chunk;

/// The most digits of a payload.
const MOST_DIGITS: usize = 128;

/// The bytes that a field spells in 2 to 128 hexadecimal digits of either case; `None` where it
/// spells none.
///
/// ```
/// // of "4869" it is the bytes 48 69 (hexadecimal), of "486" none
/// ```
#[inline(always)]
pub fn chunk_in(field: &[u8]) -> Option<Chunk>
    ensures { result ≡ Payloads.chunk_in field.now }
{
    if field.len() < 2 || field.len() > MOST_DIGITS {
        return None;
    }
    let mut bytes = [0u8; 64];
    let bytes = &mut bytes[..field.len() / 2];
    hex::decode_to_slice(field, bytes).ok()?;
    Chunk::new(bytes)
}
