ghost use Rattle.std.specs.Prelude.{◌≡◌, ◌↔◌, IfSome, IsTrue, None};
ghost use Rattle.std.specs.List.{AllByRecursion};
ghost use Rattle.tlsf_class.specs.Classes.{IsLevel};
ghost use Rattle.tlsf_pool.specs.laws.FixedSize as law;
ghost use Rattle.tlsf_pool.specs.laws.Kinds.{HasClass};
ghost use Rattle.tlsf_pool.specs.sizes.Limits.{AreRows};
ghost use Rattle.tlsf_pool.specs.laws.MixedSizes;
ghost use Rattle.tlsf_pool.specs.sizes.Splits.{HasWords};

use crate::kind::Kind;
use crate::sizes::fixed_size::fixed_kinds_words;
use crate::sizes::sizing::{kinds_words, most_bytes};
use tlsf_class::most_words;

/// The words of a region for a program of at most `most` blocks at once, of at most `len` bytes each. It is never refused for want
/// of room, by [`mixed_sizes_suffice`](crate::mixed_sizes_suffice). None where no region has that many. It is for a heap of which
/// each block has the words of its own request; a [`Pool`](crate::Pool) takes those of [`fixed_region`](crate::fixed_region).
///
/// ```
/// let words = mixed_region::<4>(100, 512);      // Some(13631)
/// let none = mixed_region::<4>(100_000, 512);   // None
/// ```
pub fn mixed_region<const SLI: u32>(most: u32, len: u32) -> Option<u32>
    requires { IsLevel SLI }
    ensures { result ≡ MixedSizes.mixed_region SLI most len }
{
    if len > most_bytes::<SLI>() {
        return None;
    }
    let words = kinds_words::<SLI>(&[Kind { most, len }]);
    if words > u64::from(most_words::<SLI>()) {
        return None;
    }
    Some(words as u32)
}

// Whether each kind of a table has a class.
fn have_classes<const SLI: u32>(kinds: &[Kind]) -> bool
    requires { IsLevel SLI }
    ensures { IsTrue result ↔ AllByRecursion (HasClass SLI) kinds.now }
{
    for kind in kinds {
        if kind.len > most_bytes::<SLI>() {
            return false;
        }
    }
    true
}

/// The words of the region of a pool for a table; None where no region has that many.
pub(crate) fn region_words<const SLI: u32>(kinds: &[Kind]) -> Option<u32>
    requires { AreRows SLI kinds.now }
    ensures some { IfSome result (λ words. HasWords SLI kinds.now × (words ≡ law.fixed_kinds_words SLI kinds.now)) }
    ensures none { result ≡ None → ¬ (HasWords SLI kinds.now) }
{
    if !have_classes::<SLI>(kinds) {
        return None;
    }
    let asked = fixed_kinds_words::<SLI>(kinds);
    if asked > u64::from(most_words::<SLI>()) {
        return None;
    }
    Some(asked as u32)
}
