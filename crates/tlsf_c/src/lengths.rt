//! Lengths as C gives them, in 64 bits.
ghost use Rattle.std.specs.Prelude.{◌≡◌};
ghost use Rattle.tlsf_c.specs.Lengths;

/// The bytes that a heap is asked for where C asks for `len`. A length that 32 bits don't hold counts as 2^32 - 1, which no region has.
///
/// ```
/// let some = saturated(100);           // 100
/// let more = saturated(4_294_967_304); // 4_294_967_295
/// ```
#[inline(always)]
pub fn saturated(len: usize) -> u32
    ensures { result ≡ Lengths.saturated len }
{
    if len > 4_294_967_295 {
        u32::MAX
    } else {
        len as u32
    }
}
