ghost use Rattle.std.specs.Prelude.{◌≡◌, ◌+◌, ◌-◌, ◌<◌, ◌≤◌, ◌++◌, length, take, drop};
ghost use Rattle.std.specs.Int.{w64, to_le_bytes};

/// The first eight bytes of some, as a word.
#[inline]
pub(crate) fn first_word(bytes: &[u8]) -> u64
    requires { 8 ≤ length bytes.now }
    ensures { to_le_bytes w64 result ≡ take 8 bytes.now }
{
    let mut word = [0; 8];
    word.copy_from_slice(&bytes[..8]);
    u64::from_le_bytes(word)
}

/// The low `n` bytes of a word, and above them the low bytes of another.
#[inline]
pub(crate) fn join_bytes(low: u64, high: u64, n: usize) -> u64
    requires { n < 8 }
    ensures { to_le_bytes w64 result ≡ take n (to_le_bytes w64 low) ++ take (8 - n) (to_le_bytes w64 high) }
{
    low % (1 << (8 * n)) + (high << (8 * n))
}

/// A word without its low `n` bytes: those above them move down, and zeros follow.
#[inline]
pub(crate) fn drop_bytes(word: u64, n: usize) -> u64
    requires { n < 8 }
    ensures { take (8 - n) (to_le_bytes w64 result) ≡ drop n (to_le_bytes w64 word) }
{
    word >> (8 * n)
}
