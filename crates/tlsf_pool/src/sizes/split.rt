ghost use Rattle.std.specs.Prelude.{◌≡◌, ◌≤◌, ◌<◌, ◌+◌, ◌^◌, ℕ, List, length, drop, IfSome, None};
ghost use Rattle.tlsf_pool.specs.sizes.Cheapest as found;
ghost use Rattle.tlsf_pool.specs.sizes.Cheapest.{AreBest, AreSmall, IsBest};
ghost use Rattle.tlsf_pool.specs.sizes.Rising.{HasNoHeaps, Rises};
ghost use Rattle.tlsf_pool.specs.sizes.Limits.{AreRows, MaySplit};
ghost use Rattle.tlsf_pool.specs.sizes.Splits.{CutAlike, HasNoCut, IsLeast};
ghost use Rattle.tlsf_pool.specs.declared.kind.Kind as shown;
ghost use Rattle.tlsf_pool.specs.declared.sizes.split.Split as cut;

use crate::kind::Kind;
use crate::sizes::region::region_words;
use crate::sizes::rising::falling_row;
use std::marker::Model;

/// The most heaps that a split has.
pub const MOST_HEAPS: usize = 8;

/// The most kinds of a table that is split.
pub const MOST_SPLIT: usize = 64;

/// A way to give the kinds of a table, in their order, to several heaps.
#[derive(Clone, Copy, Debug, PartialEq, Eq)]
pub struct Split {
    /// How many heaps, 0 to 8: none where there are no kinds.
    pub heaps: usize,
    /// How many kinds each of them has, the last heap first. Numbers after these mean nothing.
    pub lens: [usize; 8],
    /// The words of all heaps.
    pub words: u64,
}

/// A [`Split`] of at most 64 kinds in few bytes, since a search has 65 of them on the stack. Contracts see it as one.
#[derive(Clone, Copy)]
struct Cell {
    words: u32,
    heaps: u8,
    lens: [u8; 8],
}

impl Model for Cell {
    ghost use Rattle.tlsf_pool.specs.declared.sizes.split.Split.{Split};

    ghost Value = { Split };

    ghost view = { λ c. record { heaps = c.heaps; lens = c.lens; words = c.words } };

    ghost inverse = { λ s. record { words = s.words; heaps = s.heaps; lens = s.lens } };
}

impl Cell {
    /// The split that it is.
    fn split(self) -> Split
        ensures { result ≡ self }
    {
        let mut lens = [0; 8];
        for at in 0..8 {
            lens[at] = usize::from(self.lens[at]);
        }
        Split {
            heaps: usize::from(self.heaps),
            lens,
            words: u64::from(self.words),
        }
    }
}

/// Of no kind.
const NOTHING: Cell = Cell {
    heaps: 0,
    lens: [0; 8],
    words: 0,
};

// The one of fewer words.
fn cheaper(split: Option<Cell>, other: Option<Cell>) -> Option<Cell>
    ensures { result ≡ found.cheaper split other }
{
    match (split, other) {
        (None, other) => other,
        (Some(split), None) => Some(split),
        (Some(split), Some(other)) => Some(if other.words < split.words {
            other
        } else {
            split
        }),
    }
}

// A split with a first heap more, for this many kinds, of that many words.
fn with_first(len: usize, words: Option<u32>, rest: Option<Cell>) -> Option<Cell>
    requires len { len ≤ 64 }
    requires words { IfSome words (λ n. n ≤ 2 ^ 24) }
    requires small { AreSmall 7 rest }
    ensures value { result ≡ found.with_first len words rest }
{
    let words = words?;
    let mut split = rest?;
    split.lens[usize::from(split.heaps)] = len as u8;
    split.heaps += 1;
    split.words += words;
    Some(split)
}

// The best split of these kinds into at most one heap more than `heaps`. It comes of the best ones into at most `heaps` of the
// kinds that are left after one of them, after two and so on.
fn best_of<const SLI: u32>(kinds: &[Kind], rests: &[Option<Cell>], heaps: usize) -> Option<Cell>
    requires rows { AreRows SLI kinds.now }
    requires some { 0 < length kinds.now }
    requires heaps { heaps ≤ 7 }
    requires behind { length rests.now ≡ length kinds.now }
    requires best { AreBest SLI heaps (drop 1 kinds.now) rests.now }
    ensures best { IsBest SLI (heaps + 1) kinds.now result }
    ensures small { AreSmall (heaps + 1) result }
{
    let mut best = None;
    for (index, rest) in rests.iter().enumerate() {
        let len = index + 1;
        let words = region_words::<SLI>(&kinds[..len]);
        best = cheaper(best, with_first(len, words, *rest));
    }
    best
}

// Allows one heap more to the best split of the kinds that are left after each number of them.
fn allow_one_more<const SLI: u32>(kinds: &[Kind], row: &mut [Option<Cell>], heaps: usize)
    requires rows { AreRows SLI kinds.now }
    requires heaps { heaps ≤ 7 }
    requires behind { length row.old ≡ length kinds.now + 1 }
    requires best { AreBest SLI heaps kinds.now row.old }
    ensures { AreBest SLI (heaps + 1) kinds.now row.new }
{
    for at in 0..kinds.len() {
        let (_, rests) = row.split_at(at + 1);
        row[at] = best_of::<SLI>(&kinds[at..], rests, heaps);
    }
}

// Begins with the best splits into no heap: there is one of no kinds alone.
fn begin<const SLI: u32>(kinds: &[Kind], row: &mut [Option<Cell>])
    requires { length row.old ≡ length kinds.now + 1 }
    ensures { AreBest SLI 0 kinds.now row.new }
{
    for at in 0..kinds.len() {
        row[at] = None;
    }
    row[kinds.len()] = Some(NOTHING);
}

// The best split of the kinds into at most this many heaps, found in a row of one cell more than there are kinds.
fn best_in<const SLI: u32>(kinds: &[Kind], row: &mut [Option<Cell>], most: usize) -> Option<Cell>
    requires rows { AreRows SLI kinds.now }
    requires most { most ≤ 8 }
    requires behind { length row.old ≡ length kinds.now + 1 }
    ensures { IsBest SLI most kinds.now result }
{
    begin::<SLI>(kinds, row);
    for heaps in 0..most {
        allow_one_more::<SLI>(kinds, row, heaps);
    }
    row[0]
}

/// The cheapest way to give the kinds of a table to at most `most` heaps, each a pool. A heap has the words that
/// [`fixed_kinds_words`](crate::fixed_kinds_words) tells for its own kinds. The kinds stay in their order, so those of one heap
/// stand together. A table that begins with short kinds gives short ones to the first heap. The table has at most [`MOST_SPLIT`]
/// kinds, and there are at most [`MOST_HEAPS`] heaps. None where no way gives each heap a region. Rows may be in any order here;
/// [`rising_split`] splits a table whose heaps are all within the reach of requests.
///
/// ```
/// let kinds = [Kind { most: 2000, len: 64 }, Kind { most: 1, len: 65_536 }];
/// let split = cheapest_split::<4>(&kinds, 8);     // two heaps, of one kind each
/// ```
pub fn cheapest_split<const SLI: u32>(kinds: &[Kind], most: usize) -> Option<Split>
    requires { MaySplit SLI kinds.now most }

    // It is a way to cut the table, and no way has fewer words. Of those with as few it is the first.
    ensures least { IfSome result (IsLeast SLI most kinds.now) }
    ensures none { result ≡ None → HasNoCut SLI most kinds.now }
{
    let mut cells = [None; MOST_SPLIT + 1];
    match best_in::<SLI>(kinds, &mut cells[..kinds.len() + 1], most) {
        Some(cell) => Some(cell.split()),
        None => None,
    }
}

/// The split that [`cheapest_split`] finds for a table whose rows rise in `len`; None also where they don't, as [`falling_row`]
/// tells. A request goes to the first heap that has a row long enough for it. So each heap of this split serves requests that none
/// before it does.
///
/// ```
/// let kinds = [Kind { most: 10, len: 100 }, Kind { most: 10, len: 50 }];
/// let none = rising_split::<4>(&kinds, 8);        // None
/// ```
pub fn rising_split<const SLI: u32>(kinds: &[Kind], most: usize) -> Option<Split>
    requires { MaySplit SLI kinds.now most }
    ensures least { IfSome result (IsLeast SLI most kinds.now) }
    ensures rises { IfSome result (λ split. Rises kinds.now) }
    ensures none { result ≡ None → HasNoHeaps SLI most kinds.now }
{
    if falling_row(kinds).is_some() {
        return None;
    }
    cheapest_split::<SLI>(kinds, most)
}

/// A table has one cheapest split, also where several ways to cut it have equally few words. So the heaps of
/// [`rising_split`] are those that [`Pools::open`](crate::Pools::open) opens.
///
/// ```text
/// two blocks of up to 1 byte and three of up to 8: one heap or two have 20 words, and each split is the one of two heaps
/// ```
pub fn kinds_are_split_one_way()
    ensures { (sli heaps : ℕ) (kinds : List shown.Kind) (split other : cut.Split) → IsLeast sli heaps kinds split → IsLeast sli heaps kinds other → CutAlike kinds split other }
{}
