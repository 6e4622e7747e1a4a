ghost use Rattle.std.specs.Prelude.{◌≡◌, ◌↔◌, ℕ, ◌≤◌, IfSome, IsTrue, None};
ghost use Rattle.tlsf_class.specs.Classes.{IsLevel, most_words};
ghost use Rattle.tlsf_heap.specs.Blocks;
ghost use Rattle.tlsf_pool.specs.laws.MixedSizes;

use crate::kind::Kind;
use crate::sizes::sizing::{kinds_words, most_bytes, sure};
use tlsf_class::most_words;
use tlsf_heap::want;

/// Whether some region has the words for at most `most` blocks, of at most `len` bytes each.
fn fits<const SLI: u32>(most: u32, len: u32) -> bool
    requires level { IsLevel SLI }
    requires class { Blocks.want len ≤ most_words SLI }
    ensures { IsTrue result ↔ (MixedSizes.mixed_words SLI most len ≤ most_words SLI) }
{
    kinds_words::<SLI>(&[Kind { most, len }]) <= u64::from(most_words::<SLI>())
}

/// The most blocks of at most `len` bytes each for which some region has room, [`most_bytes`] at most.
///
/// ```
/// let most = most_blocks::<4>(512);       // 7,654: one more would need more than 2^20 words
/// ```
pub fn most_blocks<const SLI: u32>(len: u32) -> u32
    requires level { IsLevel SLI }
    requires class { Blocks.want len ≤ most_words SLI }
    ensures reached { MixedSizes.mixed_words SLI result len ≤ most_words SLI }
    ensures greatest { (most : ℕ) → MixedSizes.mixed_words SLI most len ≤ most_words SLI → most ≤ result }
{
    if len <= 8 {
        return most_words::<SLI>() / 4;
    }
    let wanted = want(len);
    (most_words::<SLI>() + wanted + 2) / (wanted + 2 + sure::<SLI>(wanted))
}

/// The most bytes that each of `most` blocks may have so that some region has room for all. None where no region has room for that
/// many blocks of no bytes.
///
/// ```
/// let longest = longest_request::<4>(100);     // Some(41248): 100 blocks of up to 41,248 bytes
/// ```
pub fn longest_request<const SLI: u32>(most: u32) -> Option<u32>
    requires { IsLevel SLI }
    ensures reached { IfSome result (λ len. (Blocks.want len ≤ most_words SLI) × (MixedSizes.mixed_words SLI most len ≤ most_words SLI)) }
    ensures greatest { IfSome result (λ longest. (len : ℕ) → Blocks.want len ≤ most_words SLI → MixedSizes.mixed_words SLI most len ≤ most_words SLI → len ≤ longest) }
    ensures none { result ≡ None → ¬ (MixedSizes.mixed_words SLI most 0 ≤ most_words SLI) }
{
    if !fits::<SLI>(most, 0) {
        return None;
    }
    let mut longest = 0;
    let mut above = most_bytes::<SLI>() + 1;
    while longest + 1 < above {
        let middle = longest + (above - longest) / 2;
        if fits::<SLI>(most, middle) {
            longest = middle;
        } else {
            above = middle;
        }
    }
    Some(longest)
}
