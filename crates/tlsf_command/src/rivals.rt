ghost use Rattle.std.specs.Prelude.{◌≡◌};
ghost use Rattle.tlsf_command.specs.Arguments.{texts_of};
ghost use Rattle.tlsf_command.specs.Rivals as told;

use crate::arguments::{is_given, number_given};
use clap::ArgMatches;

/// Two options of a command that exclude each other: each asks for something else.
#[derive(Clone, Copy)]
pub enum Rivals {
    /// `tlsf replay --held --kinds`.
    HeldKinds,
    /// `tlsf replay --held --heaps N`.
    HeldHeaps,
    /// `tlsf replay --held --least`.
    HeldLeast,
    /// `tlsf replay --kinds --least`.
    KindsLeast,
    /// `tlsf replay --heaps N --least`.
    HeapsLeast,
    /// `tlsf map --text --html`.
    TextHtml,
    /// `tlsf map --at K --html`.
    AtHtml,
    /// `tlsf map --worst --html`.
    WorstHtml,
    /// `tlsf map --at K --worst`.
    AtWorst,
}

// Two options of `replay` that exclude each other, where two are given.
fn rivals_of_replay(held: bool, kinds: bool, heaps: bool, least: bool) -> Option<Rivals>
    ensures { result ≡ told.rivals_of_replay held kinds heaps least }
{
    match (held, kinds, heaps, least) {
        (true, true, _, _) => Some(Rivals::HeldKinds),
        (true, false, true, _) => Some(Rivals::HeldHeaps),
        (true, false, false, true) => Some(Rivals::HeldLeast),
        (false, true, _, true) => Some(Rivals::KindsLeast),
        (false, false, true, true) => Some(Rivals::HeapsLeast),
        _ => None,
    }
}

// Two options of `map` that exclude each other, where two are given.
fn rivals_of_map(text: bool, at: bool, worst: bool, html: bool) -> Option<Rivals>
    ensures { result ≡ told.rivals_of_map text at worst html }
{
    match (text, at, worst, html) {
        (true, _, _, true) => Some(Rivals::TextHtml),
        (false, true, _, true) => Some(Rivals::AtHtml),
        (false, false, true, true) => Some(Rivals::WorstHtml),
        (_, true, true, false) => Some(Rivals::AtWorst),
        _ => None,
    }
}

/// Two options of the command of this name that exclude each other and are given, where there are such.
///
/// ```
/// // of the matches of "map --at 5 --worst"
/// let rivals = rivals_given("map", &matches);     // Some(Rivals::AtWorst)
/// ```
pub fn rivals_given(name: &str, given: &ArgMatches<'_>) -> Option<Rivals>
    ensures { result ≡ told.rivals_given name.now (texts_of given.now) }
{
    match name {
        "replay" => rivals_of_replay(
            is_given(given, "held"),
            is_given(given, "kinds"),
            number_given(given, "H", 0) > 0,
            is_given(given, "least"),
        ),
        "map" => rivals_of_map(
            is_given(given, "text"),
            number_given(given, "K", 0) > 0,
            is_given(given, "worst"),
            is_given(given, "html"),
        ),
        _ => None,
    }
}

impl Rivals {
    ghost use Rattle.std.specs.Prelude.{◌≡◌};
    ghost use Rattle.tlsf_command.specs.Rivals as told;

    /// The line that refuses both.
    ///
    /// ```
    /// let line = Rivals::AtWorst.line();     // "tlsf: --at and --worst exclude each other: give one of them\n"
    /// ```
    pub fn line(self) -> &'static str
        ensures { result.now ≡ told.rivals_line self }
    {
        match self {
            Rivals::HeldKinds => "tlsf: --held and --kinds exclude each other: give one of them\n",
            Rivals::HeldHeaps => "tlsf: --held and --heaps exclude each other: give one of them\n",
            Rivals::HeldLeast => "tlsf: --held and --least exclude each other: give one of them\n",
            Rivals::KindsLeast => {
                "tlsf: --kinds and --least exclude each other: give one of them\n"
            }
            Rivals::HeapsLeast => {
                "tlsf: --heaps and --least exclude each other: give one of them\n"
            }
            Rivals::TextHtml => "tlsf: --text and --html exclude each other: give one of them\n",
            Rivals::AtHtml => "tlsf: --at and --html exclude each other: give one of them\n",
            Rivals::WorstHtml => "tlsf: --worst and --html exclude each other: give one of them\n",
            Rivals::AtWorst => "tlsf: --at and --worst exclude each other: give one of them\n",
        }
    }
}
