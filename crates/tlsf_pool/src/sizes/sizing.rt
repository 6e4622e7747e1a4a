ghost use Rattle.std.specs.Prelude.{◌≡◌, ◌≤◌, ◌*◌, ◌+◌, ◌-◌, ◌^◌};
ghost use Rattle.tlsf_heap.specs.Blocks;
ghost use Rattle.tlsf_pool.specs.laws.Room;
ghost use Rattle.tlsf_pool.specs.laws.Kinds;
ghost use Rattle.tlsf_class.specs.Classes.{IsLevel, most_words};
ghost use Rattle.tlsf_pool.specs.laws.Kinds.{count_in, table_words, HasClass};
ghost use Rattle.tlsf_pool.specs.sizes.Limits.{AreTold, most_kinds};

use crate::kind::Kind;
use tlsf_class::{low, most_words, search_of};
use tlsf_heap::want;

/// The most bytes that a request may have so that some region serves it. They are 8,388,584 at level 4, which want 2^20 words, and
/// 134,217,704 at level 5, which want 2^24.
///
/// ```
/// let kind = Kind { most: 1, len: most_bytes::<5>() };
/// ```
pub fn most_bytes<const SLI: u32>() -> u32
    requires { IsLevel SLI }
    ensures { result ≡ 8 * (most_words SLI - 3) }
{
    8 * (most_words::<SLI>() - 3)
}

/// The least size from which each free block serves a request of `n` words.
pub(crate) fn sure<const SLI: u32>(words: u32) -> u32
    requires level { IsLevel SLI }
    requires least { 4 ≤ words }
    requires most { words ≤ most_words SLI }
    ensures value { result ≡ Room.sure SLI words }
    ensures least { words ≤ result }
    ensures most { result ≤ most_words SLI }
{
    low(search_of::<SLI>(words))
}

/// How many blocks a table of kinds has, and the words that they take, at most.
#[derive(Clone, Copy)]
pub(crate) struct Totals {
    pub(crate) count: u64,
    pub(crate) words: u64,
}

/// The totals of a table of kinds.
pub(crate) fn totals_of<const SLI: u32>(kinds: &[Kind]) -> Totals
    requires { AreTold SLI kinds.now }
    ensures count { result.count ≡ count_in kinds.now }
    ensures words { result.words ≡ table_words kinds.now }
    ensures small_count { result.count ≤ most_kinds SLI * 2 ^ 32 }
    ensures small_words { result.words ≤ 2 ^ 63 }
{
    let mut count = 0;
    let mut words = 0;
    for kind in kinds {
        let most = u64::from(kind.most);
        count += most;
        words += most * u64::from(want(kind.len) + 3);
    }
    Totals { count, words }
}

/// The words with which a request of this kind finds room, where all others of the table are held.
fn words_beside<const SLI: u32>(totals: Totals, kind: Kind) -> u64
    requires level { IsLevel SLI }
    requires class { HasClass SLI kind }
    requires small_count { totals.count ≤ most_kinds SLI * 2 ^ 32 }
    requires small_words { totals.words ≤ 2 ^ 63 }
    ensures { result ≡ totals.words - (Blocks.want kind.len + 3) + totals.count * (Room.sure SLI (Blocks.want kind.len) - 1) + 1 }
{
    let wanted = want(kind.len);
    let lost = u64::from(sure::<SLI>(wanted) - 1);
    totals.words.saturating_sub(u64::from(wanted + 3)) + totals.count * lost + 1
}

/// Whether no request of a table is longer than 8 bytes, which want four words.
fn are_fours(kinds: &[Kind]) -> bool
    ensures { result ≡ Kinds.are_fours kinds.now }
{
    for kind in kinds {
        if kind.most > 0 && kind.len > 8 {
            return false;
        }
    }
    true
}

/// The words of a region in which no request of these kinds is ever refused for want of room, by
/// [`kinds_suffice`](crate::kinds_suffice). At most the table's number of blocks of each kind are held at once. There are 1,024
/// kinds at most or 64 at level 5, none longer than [`most_bytes`]. No region has more than 2^20 words, or 2^24 at level 5, so
/// there is one where the answer is at most that. A kind of which no block is held asks for nothing. Where no request is longer
/// than 8 bytes these are four words for each block, and no block may be resized to more.
///
/// ```
/// let words = kinds_words::<4>(&[Kind { most: 100, len: 512 }]);   // 13,631
/// ```
pub fn kinds_words<const SLI: u32>(kinds: &[Kind]) -> u64
    requires { AreTold SLI kinds.now }
    ensures { result ≡ Kinds.kinds_words SLI kinds.now }
{
    let totals = totals_of::<SLI>(kinds);
    if are_fours(kinds) {
        let words = totals.count * 4;
        return words.max(4);
    }
    let mut words = 4;
    for kind in kinds {
        if kind.most > 0 {
            words = words.max(words_beside::<SLI>(totals, *kind));
        }
    }
    words
}
