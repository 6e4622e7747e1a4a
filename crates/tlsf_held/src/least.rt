//! The least words of heaps that serve a trace, found by replays.
ghost use Rattle.std.specs.Prelude.{◌≡◌, ◌+◌, ◌<◌, ◌≤◌, ◌++◌, ◌^◌, IfOk, IfSome, OnOk, string_bytes};
ghost use Rattle.tlsf_held.specs.Least as told;
ghost use Rattle.tlsf_held.specs.Least.{least_line, least_text, unserved_in, with_words, AreLeastRows, AreLeastWords, IsLeastRow, IsReady, IsScriptBut, KeepsScript};
ghost use Rattle.tlsf_held.specs.Measures.{IsRunOf};
ghost use Rattle.tlsf_lines.specs.Trace.{Trace};
ghost use Rattle.tlsf_lines.specs.Versions.{most_words_of};

use crate::least_row::LeastRow;
use crate::lines::write_words;
use crate::loans::Loans;
use crate::tally::Tally;
use std::alloc::{AllocError, Global};
use tlsf_crew::{CrewRefusal, Entry, Gate, Reply};
use tlsf_heap::Refusal;
use tlsf_lines::Script;
use tlsf_trace::Player;

// The line after which each trace has ended.
const END: u32 = u32::MAX;

// Whether the heap had no room, for a block or for a longer one in its place.
fn lacks_room(reply: Reply) -> bool
    ensures { result ≡ told.lacks_room reply }
{
    match reply {
        Reply::Refused(CrewRefusal::Heap(why)) => {
            matches!(why, Refusal::NoFit | Refusal::NoRoom)
        }
        _ => false,
    }
}

// How many requests of a worker found no room.
fn unserved(worker: u32, entries: &[Entry]) -> usize
    ensures { result ≡ told.unserved worker entries.now }
{
    entries
        .iter()
        .filter(|entry| entry.worker == worker && lacks_room(entry.reply))
        .count()
}

// Replays a script with heaps of this many words.
fn replayed<const SLI: u32>(
    alloc: Global,
    script: &mut Script,
    words: u32,
) -> Result<(Player<SLI>, Vec<Entry>), AllocError>
    requires ready { IsReady SLI script.old }
    requires words { (4 ≤ words) × (words ≤ most_words_of script.old.header.version) }
    ensures header { script.new.header ≡ record script.old.header { words = words } }
    ensures script { KeepsScript SLI script.old script.new }
    ensures run { (trace : Trace) → IsScriptBut script.old trace
        → IfOk result (λ ran. IsRunOf (with_words words trace) ran.0.made.items ran.1.items) }
{
    script.header.words = words;
    let mut player = Player::<SLI>::open(alloc, script)?;
    let entries = player.step_to(alloc, script, END)?;
    Ok((player, entries))
}

// How many requests of a worker find no room in heaps of this many words, after a pass of the gate.
fn unserved_with<const SLI: u32, G: Gate>(
    alloc: Global,
    script: &mut Script,
    worker: u32,
    words: u32,
    gate: &G,
) -> Result<usize, AllocError>
    requires ready { IsReady SLI script.old }
    requires words { (4 ≤ words) × (words ≤ most_words_of script.old.header.version) }
    ensures header { script.new.header ≡ record script.old.header { words = words } }
    ensures script { KeepsScript SLI script.old script.new }
    ensures count { (trace : Trace) → IsScriptBut script.old trace → IfOk result (λ count. count ≡ unserved_in words trace worker) }
{
    gate.pass(worker, words);
    let (_, entries) = replayed::<SLI>(alloc, script, words)?;
    Ok(unserved(worker, &entries))
}

// The words of the next replay, where `refused` are refused and `served` served. They are first these, then twice the last ones
// until some serve, and then the middle.
fn next_words(first: u32, refused: u32, served: u32, most: u32) -> u32
    requires least { 3 ≤ refused }
    requires apart { refused + 1 < served }
    requires most { (served ≤ most + 1) × (most < 2 ^ 30) }
    ensures { (refused < result) × (result < served) }
{
    if refused < first && first < served {
        first
    } else if served > most {
        (refused * 2).min(most)
    } else {
        refused + (served - refused) / 2
    }
}

// The least words of heaps that serve all requests of a worker, found from this number on.
fn least_words<const SLI: u32, G: Gate>(
    alloc: Global,
    script: &mut Script,
    worker: u32,
    first: u32,
    gate: &G,
) -> Result<Option<u32>, AllocError>
    requires { IsReady SLI script.old }
    ensures script { KeepsScript SLI script.old script.new }
    ensures range { IfOk result (λ found. IfSome found (λ words. (4 ≤ words) × (words ≤ most_words_of script.new.header.version))) }
    ensures least { (trace : Trace) → IsScriptBut script.old trace → IfOk result (AreLeastWords trace worker) }
{
    let most = script.header.version.most_words();
    let mut refused = 3;
    let mut served = most + 1;
    while served - refused > 1 {
        let words = next_words(first, refused, served, most);
        if unserved_with::<SLI, G>(alloc, script, worker, words, gate)? == 0 {
            served = words;
        } else {
            refused = words;
        }
    }
    Ok(if served > most { None } else { Some(served) })
}

// The row of a worker.
fn least_row<const SLI: u32, G: Gate>(
    alloc: Global,
    script: &mut Script,
    worker: u32,
    first: u32,
    gate: &G,
) -> Result<LeastRow, AllocError>
    requires ready { IsReady SLI script.old }
    requires worker { worker < script.old.header.workers }
    ensures script { KeepsScript SLI script.old script.new }
    ensures row { (trace : Trace) → IsScriptBut script.old trace → IfOk result (IsLeastRow trace worker) }
{
    let words = least_words::<SLI, G>(alloc, script, worker, first, gate)?;
    let most = script.header.version.most_words();
    let (player, entries) = replayed::<SLI>(alloc, script, words.unwrap_or(most))?;
    let law = Tally::of(worker, &entries).region::<SLI>();
    let loans = Loans::of(alloc, worker, &player.made, &entries)?;
    Ok(LeastRow {
        words,
        wanted: loans.most(),
        law,
    })
}

/// The rows of the workers of a script, in rising number. The words of its header are those of the last replay then.
pub fn least_rows<const SLI: u32, G: Gate>(
    alloc: Global,
    script: &mut Script,
    gate: &G,
) -> Result<Vec<LeastRow>, AllocError>
    requires { IsReady SLI script.old }
    ensures { (trace : Trace) → IsScriptBut script.old trace → IfOk result (λ rows. AreLeastRows trace trace.header.workers rows.items) }
{
    let mut first = script.header.words;
    let mut rows = Vec::new(alloc);
    for worker in 0..script.header.workers {
        let row = least_row::<SLI, G>(alloc, script, worker, first, gate)?;
        // Workers are often alike, and a replay in large heaps takes long.
        first = row.words.unwrap_or(first);
        rows.push(row)?;
    }
    Ok(rows)
}

// Adds the line of a worker, with its line feed.
fn write_least_line(text: &mut String, worker: usize, row: &LeastRow) -> Result<(), AllocError>
    ensures { OnOk result (string_bytes text.new ≡ string_bytes text.old ++ least_line worker row.now) }
{
    write!(text, "least {worker} words ")?;
    write_words(text, row.words)?;
    let wanted = row.wanted;
    write!(text, " wanted {wanted} law ")?;
    write_words(text, row.law)?;
    text.push_str("\n")
}

/// Adds the lines of the workers from 0 on.
pub fn write_least_lines(text: &mut String, rows: &[LeastRow]) -> Result<(), AllocError>
    ensures { OnOk result (string_bytes text.new ≡ string_bytes text.old ++ least_text 0 rows.now) }
{
    for (worker, row) in rows.iter().enumerate() {
        write_least_line(text, worker, row)?;
    }
    Ok(())
}
