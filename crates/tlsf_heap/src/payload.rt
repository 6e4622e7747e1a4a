//! The payload of a live block at another length. Places are in words, lengths in bytes.
ghost use Rattle.std.specs.Prelude.{◌≡◌, ℕ, ◌+◌, ◌-◌, ◌*◌, ◌/◌, ◌<◌, ◌≤◌, ◌^◌, false, length, slice_index};
ghost use Rattle.tlsf_words.specs.Bytes.{byte_in, bytes_in, payload_byte};
ghost use Rattle.tlsf_words.specs.Fields.{low_half, length_word};
ghost use Rattle.tlsf_words.specs.Touched.{times, InGroups};
ghost use Rattle.tlsf_heap.specs.Blocks.{words_for};
ghost use Rattle.tlsf_heap.specs.Calls.{fitted};
ghost use Rattle.tlsf_heap.specs.Headers.{OnlyFrom, RisesBy};

use tlsf_words::Words;

/// Writes the payload length of the live block at a place. The bytes up to the smaller length stay, and new ones are zero. Bytes of a
/// word past the length have no meaning, so a payload that grows within a word has them made zero too. Where the caller knows that it
/// doesn't grow, `grows` is false.
// A constant of the caller's, so a resize that fills nothing has no code that fills.
#[inline(always)]
#[tactic(auto, using(tlsf_words::proofs::Touching::times_other))]
pub fn set_payload(words: &mut Words, at: u32, len: u32, grows: bool)
    requires old { at + words_for (low_half (slice_index words.old.words (at + 2))) ≤ length words.old.words }
    requires new { at + words_for len ≤ length words.old.words }
    requires small { length words.old.words ≤ 2 ^ 24 }
    requires grows { grows ≡ false → len ≤ low_half (slice_index words.old.words (at + 2)) }
    ensures length { slice_index words.new.words (at + 2) ≡ length_word len }
    ensures bytes { bytes_in words.new.words (8 * (at + 3)) len ≡ fitted (bytes_in words.old.words (8 * (at + 3)) (low_half (slice_index words.old.words (at + 2)))) len }
    ensures only { OnlyFrom words.old.words words.new.words (at + 2) (at + words_for len) }
    ensures starts { words.new.starts ≡ words.old.starts }
    ensures stays { words.new.extents ≡ words.old.extents }
    ensures touches { RisesBy words.old.touches words.new.touches (words_for len) }

    // Of the payload it touches no word that has only old bytes.
    ensures grown { words.new.touches ≤ words.old.touches + 4 + (words_for len - words_for (low_half (slice_index words.old.words (at + 2)))) }
    ensures touched_before { (k : ℕ) → k < at + 2 → times words.new.touched k ≡ times words.old.touched k }
    ensures touched_behind { (k : ℕ) → at + words_for len ≤ k → times words.new.touched k ≡ times words.old.touched k }
    ensures groups { InGroups (3 + (len - low_half (slice_index words.old.words (at + 2))) / 64) words.old.touched words.new.touched }
{
    let old = words.length(at);
    words.set_length(at, len);
    if !grows {
        return;
    }
    if len > old {
        zero_bytes(words, at, old, len);
    }
}

/// Makes the bytes of a payload zero from number `from` up to `to`, and those behind them in the same word.
#[tactic(auto, using(tlsf_words::proofs::Touching::times_other))]
fn zero_bytes(words: &mut Words, at: u32, from: u32, to: u32)
    requires some { from < to }
    requires within { at + words_for to ≤ length words.old.words }
    requires small { length words.old.words ≤ 2 ^ 24 }
    ensures zero { (k : ℕ) → payload_byte at from ≤ k → k < payload_byte at to → byte_in words.new.words k ≡ 0 }
    ensures before { (k : ℕ) → k < payload_byte at from → byte_in words.new.words k ≡ byte_in words.old.words k }
    ensures only { OnlyFrom words.old.words words.new.words (at + 3) (at + words_for to) }
    ensures starts { words.new.starts ≡ words.old.starts }
    ensures stays { words.new.extents ≡ words.old.extents }
    ensures touches { RisesBy words.old.touches words.new.touches (1 + (to + 7) / 8) }
    ensures grown { words.new.touches ≤ words.old.touches + 2 + ((to + 7) / 8 - (from + 7) / 8) }
    ensures touched_before { (k : ℕ) → k < at + 3 + from / 8 → times words.new.touched k ≡ times words.old.touched k }
    ensures touched_behind { (k : ℕ) → at + words_for to ≤ k → times words.new.touched k ≡ times words.old.touched k }
{
    if from % 8 > 0 {
        words.zero_rest(at, from);
    }
    let first = from.div_ceil(8);
    words.zero(at + 3 + first, to.div_ceil(8) - first);
}
