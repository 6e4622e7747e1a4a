ghost use Rattle.std.specs.Prelude.{◌≡◌, ◌≤◌, ◌<◌, IfSome, None};
ghost use Rattle.tlsf_class.specs.Classes.{most_words};
ghost use Rattle.tlsf_pool.specs.laws.Kinds.{HasClass};
ghost use Rattle.tlsf_pool.specs.laws.OneLarge as law;
ghost use Rattle.tlsf_pool.specs.sizes.Limits.{AreTold};

use crate::kind::Kind;
use crate::sizes::sizing::{sure, totals_of};
use tlsf_class::most_words;
use tlsf_heap::want;

// The bytes of the longest request of a table, 0 where it has no kind.
fn longest_of(kinds: &[Kind]) -> u32
    ensures { result ≡ law.longest_of kinds.now }
{
    let mut longest = 0;
    for kind in kinds {
        longest = longest.max(kind.len);
    }
    longest
}

/// The words of a region for these small kinds and one large kind. No request of them is ever refused for want of room. This is so
/// by [`one_large_suffices`](crate::one_large_suffices): at most one large block is held, it is longer than each small one, and no
/// block is resized. None where no region has that many. The table has at most 1,024 small kinds, 64 at level 5, and no kind is
/// longer than [`most_bytes`](crate::most_bytes).
///
/// ```
/// let small = Kind { most: 2000, len: 64 };
/// let large = Kind { most: 1, len: 65_536 };
/// let words = one_large_words::<4>(&[small], large);      // Some(121740)
/// ```
pub fn one_large_words<const SLI: u32>(smalls: &[Kind], large: Kind) -> Option<u32>
    requires smalls { AreTold SLI smalls.now }
    requires class { HasClass SLI large }
    ensures some { IfSome result (λ words. (words ≡ law.one_large_words SLI smalls.now large) × (words ≤ most_words SLI)) }
    ensures none { result ≡ None → most_words SLI < law.one_large_words SLI smalls.now large }
{
    let hole = sure::<SLI>(want(longest_of(smalls)));
    let totals = totals_of::<SLI>(smalls);
    let holes = totals.count * u64::from(hole - 1);
    let block = u64::from(want(large.len) + 3);
    let beside = totals.words + holes;
    let outside = beside + block;
    let most = u64::from(most_words::<SLI>());
    if outside >= most {
        return None;
    }
    let least = outside as u32 + 1;
    let great = u64::from(sure::<SLI>(least));
    let front = outside + block;
    let words = front + great;
    if words > most {
        return None;
    }
    Some(words as u32)
}
