//! A tip for who writes a number with a suffix or with separators, on the command line or in a trace.
ghost use Rattle.std.specs.Prelude.{◌≡◌};
ghost use Rattle.tlsf_diagnosis.specs.Tips;

use crate::judge::is_all_digits;
use std::convert::AsStr;

/// The line that tells how numbers are written.
pub const NUMBER_TIP: &str = "tip: numbers are plain digits, as 65536 for 64 KiB\n";

/// Whether a field is a number with more in it than digits, as `64KiB`, `1k` and `1,000`.
pub fn is_marked_number(field: &[u8]) -> bool
    ensures { result ≡ Tips.is_marked_number field.now }
{
    match field.first() {
        Some(first) => first.is_ascii_digit() && !is_all_digits(field),
        None => false,
    }
}

// The value in a word, as 64KiB in `--bytes=64KiB`.
fn value_in(word: &str) -> &str {
    match word.split_once('=') {
        Some((_, value)) => value,
        None => word,
    }
}

/// Whether one of the words is a number with more in it than digits, or has one behind `=`.
///
/// ```
/// let marked = have_marked_number(&["tlsf", "classes", "1k"]);      // true
/// ```
pub fn have_marked_number<S: AsStr>(words: &[S]) -> bool {
    for word in words {
        if is_marked_number(value_in(word.as_str()).as_bytes()) {
            return true;
        }
    }
    false
}
