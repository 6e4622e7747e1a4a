ghost use Rattle.std.specs.Prelude.{◌≡◌, ◌∷◌, ◌<◌, length};
ghost use Rattle.tlsf_lines.specs.Pieces.{pieces_of};

use memchr::memchr;

/// The text up to its first line feed, that byte included, and what follows; a text without a
/// line feed is one piece.
///
/// ```
/// // of "ab\nc" they are "ab\n" and "c"
/// ```
#[inline(always)]
#[tactic(auto, using(crate::proofs::FirstPiece::cut_at, crate::proofs::FirstPiece::not_cut, crate::proofs::FirstPiece::free_before))]
pub fn cut_piece(text: &[u8]) -> (&[u8], &[u8])
    requires { 0 < length text.now }
    ensures pieces { pieces_of text.now ≡ result.0.now ∷ pieces_of result.1.now }
    ensures shorter { length result.1.now < length text.now }
{
    match memchr(b'\n', text) {
        Some(feed) => text.split_at(feed + 1),
        None => (text, &[]),
    }
}
