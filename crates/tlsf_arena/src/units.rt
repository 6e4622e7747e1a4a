ghost use Rattle.std.specs.Prelude.{◌≡◌, ◌*◌, ◌/◌, ◌%◌, ◌^◌, ◌<◌, ◌≤◌};
ghost use Rattle.tlsf_arena.specs.Units.{IsUnit, held_units, lacking, units_for};

use crate::memory::GRAIN;

// The units that a request of `len` bytes gets.
pub(crate) fn units_of(len: usize, unit: usize) -> usize
    requires { IsUnit unit × (len < 2 ^ 63) }
    ensures units { result ≡ units_for unit len }
    ensures least { 4 ≤ result }
    ensures bytes { unit * result < 2 ^ 64 }
{
    ((len + (unit - 1)) / unit).max(4)
}

// How many units these lack of a multiple of four.
pub(crate) fn lacking(units: u32) -> u32
    ensures { result ≡ lacking units }
{
    (4 - units % 4) % 4
}

// The units that a live block of that size and payload length holds.
pub(crate) fn held_units(size: u32, length: u32) -> u32
    ensures { result ≡ held_units size length }
{
    size.saturating_sub((size % 4 + length % 4) % 4)
}

// The bytes of this many units.
pub(crate) fn bytes_of(units: u32, unit: usize) -> usize
    requires { IsUnit unit }
    ensures bytes { result ≡ unit * units }
    ensures grains { result / 16 ≡ unit / 16 * units }
    ensures whole { result % 16 ≡ 0 }
    ensures least { 16 * units ≤ result }
    ensures most { result ≤ 64 * units }
{
    units as usize * unit
}

// The grains of 16 bytes before a unit of that number.
pub(crate) fn grains_before(at: u32, unit: usize) -> usize
    requires { IsUnit unit }
    ensures grains { result ≡ unit / 16 * at }
    ensures bytes { 16 * result ≡ unit * at }
{
    at as usize * (unit / GRAIN)
}
