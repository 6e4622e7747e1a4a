ghost use Rattle.std.specs.Prelude.{◌≡◌};
ghost use Rattle.tlsf_lines.specs.Versions as spelled;

use tlsf_heap::most_words;

/// The version of a trace, which its header names: the second level at which its heaps are kept.
///
/// ```
/// // "tlsf 1 2 64 4\n" is of Version::One, "tlsf 2 2 64 4\n" of Version::Two
/// ```
#[derive(Clone, Copy, Debug, PartialEq, Eq)]
pub enum Version {
    /// `tlsf 1`: heaps of level 4, of at most 1048576 words.
    One,
    /// `tlsf 2`: heaps of level 5, of at most 16777216 words.
    Two,
}

impl Version {
    /// The version that a field spells; `None` where it spells none.
    ///
    /// ```
    /// // "2" spells Version::Two, and "3" none
    /// ```
    pub fn spelled_by(field: &[u8]) -> Option<Version>
        ensures { result ≡ spelled.version_in field.now }
    {
        if field == b"1".as_slice() {
            Some(Version::One)
        } else if field == b"2".as_slice() {
            Some(Version::Two)
        } else {
            None
        }
    }

    /// The most words of a heap.
    pub fn most_words(self) -> u32
        ensures { result ≡ spelled.most_words_of self }
    {
        match self {
            Version::One => most_words::<4>(),
            Version::Two => most_words::<5>(),
        }
    }
}
