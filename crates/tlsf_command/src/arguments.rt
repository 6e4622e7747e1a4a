//! The words that are given to a command, by the ids of its arguments.
ghost use Rattle.std.specs.Prelude.{◌≡◌, map};
ghost use Rattle.tlsf_command.specs.Arguments as told;
ghost use Rattle.tlsf_command.specs.Arguments.{texts_of};

use clap::ArgMatches;

/// The number that the text spells, 0 where it spells none of 32 bits.
pub fn number_of(text: &str) -> u32
    ensures { result ≡ told.number_of text.now }
{
    text.parse().unwrap_or(0)
}

// The number that the first text spells, and another one where there is no text.
fn first_number(texts: &[&str], none: u32) -> u32
    ensures { result ≡ told.first_number none (map (λ text. text.now) texts.now) }
{
    match texts.first() {
        Some(text) => number_of(text),
        None => none,
    }
}

/// The number that is given under an id, and another one where none is.
pub fn number_given(given: &ArgMatches<'_>, id: &str, none: u32) -> u32
    ensures { result ≡ told.first_number none (texts_of given.now id.now) }
{
    match given.get_raw(id) {
        Some(texts) => first_number(texts, none),
        None => none,
    }
}

// Whether the first text says that a flag is given.
fn is_set(texts: &[&str]) -> bool
    ensures { result ≡ told.is_set (map (λ text. text.now) texts.now) }
{
    match texts.first() {
        Some(text) => *text == "true",
        None => false,
    }
}

/// Whether a flag of this name is given.
pub fn is_given(given: &ArgMatches<'_>, name: &str) -> bool
    ensures { result ≡ told.is_set (texts_of given.now name.now) }
{
    match given.get_raw(name) {
        Some(texts) => is_set(texts),
        None => false,
    }
}
