//! How a row of places is divided into a few parts by the fewest words.
ghost use Rattle.std.specs.Prelude.{◌≡◌, ℕ, ◌+◌, ◌*◌, ◌<◌, ◌≤◌, ◌^◌, get_or, length};
ghost use Rattle.tlsf_held.specs.Divisions as found;
ghost use Rattle.tlsf_held.specs.Divisions.{cost_in, no_split, AreBest, AreSmall, HasCells, IsBest};

use tlsf_pool::Split;

/// The most places that are divided.
pub const MOST_PLACES: usize = 64;

/// The words of the parts that begin at one place, by the number of the last place of each.
pub type Costs = [u64; MOST_PLACES];

// Of no place.
const NOTHING: Split = Split {
    heaps: 0,
    lens: [0; 8],
    words: 0,
};

// The one of fewer words.
fn cheaper(split: Split, other: Split) -> Split
    ensures { result ≡ found.cheaper split other }
{
    if other.words < split.words {
        other
    } else {
        split
    }
}

// A split with a first part more, of this many places and words.
fn with_first(rest: Split, len: usize, words: u64) -> Split
    requires few { rest.heaps ≤ 7 }
    requires room { length rest.lens ≡ 8 }
    requires words { rest.words ≤ 2 ^ 32 * rest.heaps }
    requires more { words ≤ 2 ^ 32 }
    ensures { result ≡ found.with_first rest len words }
{
    let mut split = rest;
    split.lens[split.heaps] = len;
    split.heaps += 1;
    split.words += words;
    split
}

// The best split of the places from one on into at most one part more than `heaps`. It comes of the best ones from each later place
// into at most `heaps`.
fn best_of(costs: &[Costs], row: &[Split], at: usize, heaps: usize) -> Split
    requires cells { HasCells costs.now row.now }
    requires heaps { heaps ≤ 7 }
    requires at { at < length costs.now }
    requires best { (k : ℕ) → at ≤ k → k ≤ length costs.now → IsBest (cost_in costs.now) (length costs.now) heaps k (get_or row.now k no_split) }
    ensures { IsBest (cost_in costs.now) (length costs.now) (heaps + 1) at result }
{
    let mut best = row[at];
    for last in at..costs.len() {
        let split = with_first(row[last + 1], last + 1 - at, costs[at][last]);
        best = cheaper(best, split);
    }
    best
}

// Allows one part more to the best split from each place on.
fn allow_one_more(costs: &[Costs], row: &mut [Split], heaps: usize)
    requires cells { HasCells costs.now row.old }
    requires heaps { heaps ≤ 7 }
    requires best { AreBest (cost_in costs.now) (length costs.now) heaps row.old }
    ensures { AreBest (cost_in costs.now) (length costs.now) (heaps + 1) row.new }
{
    for at in 0..costs.len() {
        row[at] = best_of(costs, row, at, heaps);
    }
}

// Begins with one part from each place on.
fn begin(costs: &[Costs], row: &mut [Split])
    requires { HasCells costs.now row.old }
    ensures { AreBest (cost_in costs.now) (length costs.now) 1 row.new }
{
    let count = costs.len();
    for at in 0..count {
        row[at] = with_first(NOTHING, count - at, costs[at][count - 1]);
    }
    row[count] = NOTHING;
}

// The best split of all places into at most this many parts, found in a row of one cell more.
fn best_in(costs: &[Costs], row: &mut [Split], most: usize) -> Split
    requires cells { HasCells costs.now row.old }
    requires most { (1 ≤ most) × (most ≤ 8) }
    ensures { IsBest (cost_in costs.now) (length costs.now) most 0 result }
{
    begin(costs, row);
    for heaps in 1..most {
        allow_one_more(costs, row, heaps);
    }
    row[0]
}

/// The division of all places into at most `most` parts that has the fewest words, 1 to 8 parts. There is one place for each row of
/// costs, at most [`MOST_PLACES`].
pub fn cheapest(costs: &[Costs], most: usize) -> Split
    requires costs { AreSmall costs.now }
    requires most { (1 ≤ most) × (most ≤ 8) }
    ensures { IsBest (cost_in costs.now) (length costs.now) most 0 result }
{
    let mut cells = [NOTHING; MOST_PLACES + 1];
    best_in(costs, &mut cells[..costs.len() + 1], most)
}
