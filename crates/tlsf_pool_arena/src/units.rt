ghost use Rattle.std.specs.Prelude.{◌≡◌, ℕ};
ghost use Rattle.tlsf_class.specs.Classes.{IsLevel};
ghost use Rattle.tlsf_arena.specs.Units.{IsArenaOf, IsUnit};
ghost use Rattle.tlsf_pool_arena.specs.MixedUnits.{MixedUnitsAreKept, MixedUnitsBegin, MixedUnitsFindRoom, length_for, units_of_mixed};
ghost use Rattle.tlsf_pool_arena.specs.PoolArenas.{units_of_pool};

use tlsf_pool::{fixed_region, mixed_region};

/// The payload of a heap's block that has as many words as a block of `len` bytes has units.
fn length_in_heap<const UNIT: usize>(len: u32) -> u32
    requires { IsUnit UNIT }
    ensures { result ≡ length_for UNIT len }
{
    let units = ((len as usize + (UNIT - 1)) / UNIT).max(4) as u32;
    8 * (units - 3)
}

/// The units of an arena for a program of at most `most` blocks at once, of at most `longest` bytes each. The program takes the
/// same units for each, whatever its length: those from which every free block serves the longest. It is never refused for want of
/// room, by [`fixed_size_suffices`](tlsf_pool::fixed_size_suffices). None where no arena has that many. A
/// [`PoolArena`](crate::PoolArena) of these bounds has this number of units, and takes the same for each block by itself.
///
/// ```
/// let units = fixed_units::<4, 16>(100, 512);       // Some(3200), each block of 32
/// let none = fixed_units::<4, 16>(100_000, 512);    // None
/// ```
pub fn fixed_units<const SLI: u32, const UNIT: usize>(most: u32, longest: u32) -> Option<u32>
    requires { IsArenaOf SLI UNIT }
    ensures { result ≡ units_of_pool SLI UNIT most longest }
{
    fixed_region::<SLI>(most, length_in_heap::<UNIT>(longest))
}

/// The units of an arena for a program of at most `most` blocks at once, of at most `longest` bytes each. It is never refused for
/// want of room, by [`mixed_units_suffice`]. None where no arena has that many. It is for an [`Arena`](tlsf_arena::Arena) or a
/// [`LocalArena`](tlsf_arena::LocalArena), whose blocks each have the units of their own length.
///
/// ```
/// let units = mixed_units::<4, 16>(100, 512);       // Some(6566)
/// let none = mixed_units::<4, 16>(100_000, 512);    // None
/// ```
pub fn mixed_units<const SLI: u32, const UNIT: usize>(most: u32, longest: u32) -> Option<u32>
    requires { IsArenaOf SLI UNIT }
    ensures { result ≡ units_of_mixed SLI UNIT most longest }
{
    mixed_region::<SLI>(most, length_in_heap::<UNIT>(longest))
}

/// How many units an [`Arena`](tlsf_arena::Arena) must have, so that no request is ever refused for want of room.
///
/// A program holds at most `most` blocks at any moment, and asks for at most `longest` bytes each time, also where it resizes. In an
/// arena of [`mixed_units`] of these bounds each request finds room, whatever the order of the calls. It is the law of
/// [`mixed_sizes_suffice`](tlsf_pool::mixed_sizes_suffice) for what an arena asks of its heap: whole units, in place of words.
///
/// ```text
/// 100 blocks of up to 512 bytes at level 4, in units of 16: 6,566 units, 105,056 bytes for 51,200 bytes of payload
/// ```
pub fn mixed_units_suffice()
    // A new arena is so, and each call within the bounds keeps it. There a request finds room.
    ensures begins { (sli u : ℕ) → MixedUnitsBegin sli u }
    ensures kept { (sli u : ℕ) → IsLevel sli → IsUnit u → MixedUnitsAreKept sli u }
    ensures room { (sli u : ℕ) → IsLevel sli → IsUnit u → MixedUnitsFindRoom sli u }
{}
