ghost use Rattle.std.specs.Prelude.{◌≡◌, IfSome, None};
ghost use Rattle.tlsf_pool.specs.sizes.Rising.{IsFirstFall, Rises};

use crate::kind::Kind;

/// The first row of a table that is no longer than the one before it; None where all rows rise in `len`. A request counts for the
/// first row that is long enough for it, so none counts for such a row. Rows have numbers from 0 on, so the answer is 1 at least.
///
/// ```
/// let kinds = [Kind { most: 10, len: 100 }, Kind { most: 10, len: 50 }];
/// let row = falling_row(&kinds);          // Some(1)
/// let none = falling_row(&kinds[..1]);    // None
/// ```
pub fn falling_row(kinds: &[Kind]) -> Option<usize>
    ensures falls { IfSome result (IsFirstFall kinds.now) }
    ensures rises { result ≡ None → Rises kinds.now }
{
    for row in 1..kinds.len() {
        if kinds[row].len <= kinds[row - 1].len {
            return Some(row);
        }
    }
    None
}
