ghost use Rattle.std.specs.Prelude.{◌≡◌, ◌≤◌, IfSome, None};
ghost use Rattle.std.specs.List.{AllByRecursion};
ghost use Rattle.tlsf_class.specs.Classes as class;
ghost use Rattle.tlsf_class.specs.Classes.{IsLevel};
ghost use Rattle.tlsf_pool.specs.laws.FixedSize as law;
ghost use Rattle.tlsf_pool.specs.laws.FixedSize.{HasFixedRegion, fixed_words};
ghost use Rattle.tlsf_pool.specs.laws.Kinds.{HasClass, used};
ghost use Rattle.tlsf_pool.specs.laws.OneLarge.{longest_of};
ghost use Rattle.tlsf_pool.specs.sizes.Limits.{AreTold};

use crate::kind::Kind;
use crate::sizes::sizing::{most_bytes, sure, totals_of};
use tlsf_class::most_words;
use tlsf_heap::want;

/// The words of a region for a program of at most `most` blocks at once, of at most `len` bytes each. The program takes the same
/// words for each, whatever its length. These are `sure(want(len))`, the least size of the search class of `len` bytes. By
/// [`fixed_size_suffices`](crate::fixed_size_suffices) it is never refused for want of room, and in fewer words it would be. None
/// where no region has that many: more than 2^20 at level 4, or 2^24 at level 5. It is the region that a [`Pool`](crate::Pool) of
/// these bounds takes. It is never more than that of [`mixed_region`](crate::mixed_region), where a block has the words that its
/// own length wants.
///
/// ```
/// let words = fixed_region::<4>(100, 512);      // Some(6800), each block of 68
/// let none = fixed_region::<4>(100_000, 512);   // None
/// ```
pub fn fixed_region<const SLI: u32>(most: u32, len: u32) -> Option<u32>
    requires { IsLevel SLI }
    ensures some { IfSome result (λ words. HasFixedRegion SLI most len × (words ≡ fixed_words SLI most len)) }
    ensures none { result ≡ None → ¬ (HasFixedRegion SLI most len) }
{
    if len > most_bytes::<SLI>() {
        return None;
    }
    let words = u64::from(most) * u64::from(sure::<SLI>(want(len)));
    let words = words.max(4);
    if words > u64::from(most_words::<SLI>()) {
        return None;
    }
    Some(words as u32)
}

// The bytes of the longest request of which a block may be held, 0 where there is none.
fn longest_used(kinds: &[Kind]) -> u32
    ensures { result ≡ longest_of (used kinds.now) }
{
    let mut longest = 0;
    for kind in kinds {
        if kind.most > 0 {
            longest = longest.max(kind.len);
        }
    }
    longest
}

/// The words that each block of a table takes, whatever its length. From these every free block serves the longest kind of which
/// one may be held.
pub(crate) fn fixed_size<const SLI: u32>(kinds: &[Kind]) -> u32
    requires level { IsLevel SLI }
    requires classes { AllByRecursion (HasClass SLI) kinds.now }
    ensures size { result ≡ law.fixed_size SLI kinds.now }
    ensures most { result ≤ class.most_words SLI }
{
    sure::<SLI>(want(longest_used(kinds)))
}

/// The words of a region for a table of kinds where each block takes the same words, whatever its length. These are the words of
/// the longest kind of which one is held, for each block of the table. By [`fixed_size_suffices`](crate::fixed_size_suffices) no
/// request of these kinds is ever refused there for want of room, and they are never more than [`kinds_words`](crate::kinds_words).
/// The table has at most 1,024 kinds, 64 at level 5, none longer than [`most_bytes`]. No region has more than 2^20 words, or 2^24
/// at level 5.
///
/// ```
/// let words = fixed_kinds_words::<4>(&[Kind { most: 100, len: 512 }]);   // 6,800
/// ```
pub fn fixed_kinds_words<const SLI: u32>(kinds: &[Kind]) -> u64
    requires { AreTold SLI kinds.now }
    ensures { result ≡ law.fixed_kinds_words SLI kinds.now }
{
    let totals = totals_of::<SLI>(kinds);
    let words = totals.count * u64::from(fixed_size::<SLI>(kinds));
    words.max(4)
}
