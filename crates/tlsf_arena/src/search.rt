// At which unit of an arena's memory an address lies.
ghost use Rattle.std.specs.Prelude.{◌≡◌, ◌≢◌, ℕ, ◌+◌, ◌-◌, ◌*◌, ◌^◌, ◌<◌, ◌≤◌, MatchOption};
ghost use Rattle.std.specs.Bool.{Decides};
ghost use denote.RawPtr.{count_of};
ghost use Rattle.tlsf_arena.specs.Units.{AreUnits};

use crate::space::{begins_at, lies_before};
use crate::units::grains_before;
use tlsf_class::Touches;

/// The unit that begins at an address, None where none does: one of two guesses, else the one that a search finds.
///
/// Three comparisons at most, and besides as many as the number of units is halved, up to the next whole number, until one is left.
pub(crate) fn unit_at(
    ptr: *mut u8,
    base: *mut u8,
    units: u32,
    unit: usize,
    guesses: (u32, u32),
    compared: &mut Touches,
) -> Option<u32>
    requires units { AreUnits ptr base unit units }
    requires some { 0 < units }
    ensures place { MatchOption result ((at : ℕ) → at < units → count_of ptr ≢ count_of base + unit * at) (λ at. (at < units) × (count_of ptr ≡ count_of base + unit * at)) }
    ensures counted { compared.old.count ≤ compared.new.count }
    ensures steps { 2 ^ (compared.new.count - (compared.old.count + 3)) < 2 * units }
    ensures first { guesses.0 < units → count_of ptr ≡ count_of base + unit * guesses.0 → compared.new.count ≤ compared.old.count + 1 }
    ensures second { guesses.1 < units → count_of ptr ≡ count_of base + unit * guesses.1 → compared.new.count ≤ compared.old.count + 2 }
{
    if is_unit_at(ptr, base, units, unit, guesses.0, compared) {
        return Some(guesses.0);
    }
    if is_unit_at(ptr, base, units, unit, guesses.1, compared) {
        return Some(guesses.1);
    }
    let at = sought(ptr, base, units, unit, compared);
    if is_unit_at(ptr, base, units, unit, at, compared) {
        return Some(at);
    }
    None
}

/// Whether a unit begins at an address, and is one of this number of units: one comparison at most.
fn is_unit_at(
    ptr: *mut u8,
    base: *mut u8,
    units: u32,
    unit: usize,
    at: u32,
    compared: &mut Touches,
) -> bool
    requires units { AreUnits ptr base unit units }
    ensures place { Decides result ((at < units) × (count_of ptr ≡ count_of base + unit * at)) }
    ensures counted { compared.old.count ≤ compared.new.count }
    ensures steps { compared.new.count ≤ compared.old.count + 1 }
{
    if at >= units {
        return false;
    }
    begins_at(ptr, base, grains_before(at, unit), compared)
}

/// The one unit that can begin at an address: each comparison halves the units in question.
fn sought(ptr: *mut u8, base: *mut u8, units: u32, unit: usize, compared: &mut Touches) -> u32
    requires units { AreUnits ptr base unit units }
    requires some { 0 < units }
    ensures below { result < units }
    ensures place { (at : ℕ) → at < units → count_of ptr ≡ count_of base + unit * at → at ≡ result }
    ensures counted { compared.old.count ≤ compared.new.count }
    ensures steps { 2 ^ (compared.new.count - compared.old.count) < 2 * units }
{
    let mut at = 0u32;
    let mut count = units;
    'halves: while count > 1 {
        let half = count / 2;
        let middle = at + half;
        if !lies_before(ptr, base, grains_before(middle, unit), compared) {
            at = middle;
        }
        count -= half;
    }
    at
}
