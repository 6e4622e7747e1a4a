//! The words of `clap` on a refusal, where a tip of it misleads or one of ours serves.
use std::alloc::{AllocError, Global};
use std::convert::AsStr;

/// The line after the words of `clap` on the lines of several workers that were given to `tlsf size` at once.
pub const TABLES_TIP: &str =
    "tip: a line at a time: tlsf replay --kinds < TRACE | xargs -L 1 tlsf size\n";

// How `clap` begins its tip to pass an option as a value. No command takes a value that begins with a hyphen.
const PASSING: &str = "\n  tip: to pass '";

/// The text of `clap` without its tip to pass an option as a value. An `Err` says that memory ran out.
///
/// ```
/// let text = without_passing_tip(alloc, "error: '-x'\n\n  tip: to pass '-x' ..\n\nUsage: ..\n")?;
/// // text is "error: '-x'\n\nUsage: ..\n"
/// ```
pub fn without_passing_tip(alloc: Global, text: &str) -> Result<String, AllocError> {
    let (front, behind) = match text.split_once(PASSING) {
        Some((front, tip)) => (front.trim_end(), tip.split_once('\n')),
        None => (text, None),
    };
    match behind {
        Some((_, usage)) => format!(in alloc; "{front}\n{usage}"),
        None => format!(in alloc; "{front}"),
    }
}

/// Whether the words give `tlsf size` the level more than once, as the lines of several workers do.
///
/// ```
/// let several = give_tables(&["tlsf", "size", "--level", "4", "--level", "4"]);      // true
/// ```
pub fn give_tables<S: AsStr>(words: &[S]) -> bool {
    let mut levels = 0u64;
    let mut is_size = false;
    for word in words {
        let text = word.as_str();
        is_size |= text == "size";
        if text == "--sli" || text == "--level" {
            levels = levels.saturating_add(1);
        }
    }
    is_size && levels > 1
}

// Whether a word looks like the name of a file: it has a `.` or a `/`, or is the `-` of standard input.
fn looks_like_file(word: &str) -> bool {
    word == "-" || word.split_once('.').is_some() || word.split_once('/').is_some()
}

/// The word in the place of a command, where it looks like the name of a file. No command has a `.` or a `/`.
///
/// ```
/// let file = file_for_command(&["tlsf", "first.trace"]);                             // Some("first.trace")
/// let none = file_for_command(&["tlsf", "repaly"]);                                  // None
/// ```
pub fn file_for_command<'a, S: AsStr>(words: &'a [S]) -> Option<&'a str> {
    match words.get(1) {
        Some(word) if looks_like_file(word.as_str()) => Some(word.as_str()),
        _ => None,
    }
}
