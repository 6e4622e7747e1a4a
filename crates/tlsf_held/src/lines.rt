//! The lines on what the entries of a run tell of each heap.
ghost use Rattle.std.specs.Prelude.{◌≡◌, ◌++◌, OnOk, string_bytes};
ghost use Rattle.tlsf_class.specs.Classes.{IsLevel};
ghost use Rattle.tlsf_held.specs.HeldLines.{held_line, held_text, words_text};
ghost use Rattle.tlsf_held.specs.Loans as loans;
ghost use Rattle.tlsf_held.specs.Tallies as tallies;

use crate::loans::Loans;
use crate::tally::Tally;
use std::alloc::{AllocError, Global};
use tlsf_crew::Entry;
use tlsf_heap::Name;

/// Adds the words, or that there are none.
pub fn write_words(text: &mut String, words: Option<u32>) -> Result<(), AllocError>
    ensures { OnOk result (string_bytes text.new ≡ string_bytes text.old ++ words_text words) }
{
    match words {
        Some(words) => write!(text, "{words}"),
        None => text.push_str("none"),
    }
}

// Adds the line of a worker, with its line feed.
fn write_held_line<const SLI: u32>(
    text: &mut String,
    worker: u32,
    tally: &Tally,
    words: u32,
    wanted: u128,
) -> Result<(), AllocError>
    requires { IsLevel SLI }
    ensures { OnOk result (string_bytes text.new ≡ string_bytes text.old ++ held_line SLI worker tally.now.most tally.now.longest words wanted) }
{
    let most = tally.most;
    let longest = tally.longest;
    write!(text, "held {worker} blocks {most} bytes {longest} words ")?;
    write_words(text, tally.region::<SLI>())?;
    writeln!(text, " region {words} wanted {wanted}")
}

/// Adds the line of each of `workers` workers, whose heaps have `words` words each. The lines come from the names that the events
/// of a run made, and its entries.
pub fn write_held_lines<const SLI: u32>(
    alloc: Global,
    text: &mut String,
    workers: u32,
    words: u32,
    made: &[Option<Name>],
    entries: &[Entry],
) -> Result<(), AllocError>
    requires { IsLevel SLI }
    ensures { OnOk result (string_bytes text.new ≡ string_bytes text.old
        ++ held_text SLI words (λ j. (tallies.tally_of j entries.now).most) (λ j. (tallies.tally_of j entries.now).longest) (λ j. (loans.account_of j made.now entries.now).most) workers) }
{
    for worker in 0..workers {
        let tally = Tally::of(worker, entries);
        let loans = Loans::of(alloc, worker, made, entries)?;
        write_held_line::<SLI>(text, worker, &tally, words, loans.most())?;
    }
    Ok(())
}
