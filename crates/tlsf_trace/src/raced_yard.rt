//! The yard of a race: workers over lanes, or over queues.
ghost use Rattle.std.specs.Prelude.{◌≡◌, ◌++◌, ◌<◌, ◌^◌, All, map, vec_len, string_bytes, IfOk, OnOk};
ghost use Rattle.tlsf_class.specs.Classes.{IsLevel};
ghost use Rattle.tlsf_lines.specs.Ranges.{IsHeaderInRange};
ghost use Rattle.tlsf_trace.specs.Output.{yard_of};
ghost use Rattle.tlsf_trace.specs.RacedYards.{HasRaced, IsWhole, count_in, kind_in, world_in};
ghost use Rattle.tlsf_trace.specs.ReportLines.{report_text};

use crate::report_lines::write_reports;
use std::alloc::{AllocError, Global};
use std::marker::Sync;
use std::sync::Wait;
use std::thread::Threads;
use tlsf_crew::{
    Call, Entry, Gate, QueueWorker, Worker, open_queue_yard, open_yard, race, race_queues,
};
use tlsf_lines::Header;

/// By what the workers of a race post to one another.
#[derive(Clone, Copy)]
pub(crate) enum PortKind {
    Lanes,
    Queues,
}

/// The workers of a yard, all with ports of one kind. This file has the differences between the kinds of yards in a race of a
/// trace.
#[derive(Drop)]
pub(crate) enum RacedYard<const SLI: u32> {
    OverLanes(Vec<Worker<SLI>>),
    OverQueues(Vec<QueueWorker<SLI>>),
}

/// Opens the yard that a header names.
pub(crate) fn open_raced_yard<const SLI: u32>(
    alloc: Global,
    kind: PortKind,
    header: Header,
) -> Result<RacedYard<SLI>, AllocError>
    requires level { IsLevel SLI }
    requires header { IsHeaderInRange header }
    ensures kind { IfOk result (λ yard. kind_in yard ≡ kind) }
    ensures whole { IfOk result (λ yard. IsWhole yard) }
    ensures world { IfOk result (λ yard. world_in yard ≡ yard_of header) }
{
    let Header {
        workers: n,
        words,
        capacity,
        ..
    } = header;
    // A header in its ranges is not of a bad size, so what is refused here is memory.
    match kind {
        PortKind::Lanes => match open_yard(alloc, n, words, capacity) {
            Ok(workers) => Ok(RacedYard::OverLanes(workers)),
            Err(_) => Err(AllocError),
        },
        PortKind::Queues => match open_queue_yard(alloc, n, words, capacity) {
            Ok(workers) => Ok(RacedYard::OverQueues(workers)),
            Err(_) => Err(AllocError),
        },
    }
}

/// How many workers there are.
pub(crate) fn count_workers<const SLI: u32>(yard: &RacedYard<SLI>) -> u32
    requires { IsWhole yard.now }
    ensures { result ≡ count_in yard.now }
{
    match yard {
        RacedYard::OverLanes(workers) => workers.len() as u32,
        RacedYard::OverQueues(workers) => workers.len() as u32,
    }
}

/// Runs these scripts in threads, one for each worker, and hands back the yard and the records.
pub(crate) fn race_yard<const SLI: u32, R: Threads + Wait + Sync, G: Gate>(
    rt: &R,
    alloc: Global,
    yard: RacedYard<SLI>,
    scripts: Vec<Vec<Call>>,
    gate: &G,
) -> Result<(RacedYard<SLI>, Vec<Vec<Entry>>), AllocError>
    requires whole { IsWhole yard }
    requires count { vec_len scripts ≡ count_in yard }
    requires short { All (λ s. vec_len s < 2 ^ 32) scripts.items }
    ensures { IfOk result (λ o. HasRaced yard.entry (map (λ s. s.items) scripts.items) (map (λ r. r.items) o.1.items) o.0) }
{
    // A race refuses memory alone, or a thread, which counts as memory.
    match yard {
        RacedYard::OverLanes(workers) => match race(rt, alloc, workers, scripts, gate) {
            Ok(outcome) => Ok((RacedYard::OverLanes(outcome.workers), outcome.records)),
            Err(_) => Err(AllocError),
        },
        RacedYard::OverQueues(workers) => match race_queues(rt, alloc, workers, scripts, gate) {
            Ok(outcome) => Ok((RacedYard::OverQueues(outcome.workers), outcome.records)),
            Err(_) => Err(AllocError),
        },
    }
}

/// Adds the report lines of the workers' heaps.
pub(crate) fn report_yard<const SLI: u32>(
    text: &mut String,
    yard: &mut RacedYard<SLI>,
) -> Result<(), AllocError>
    requires { IsWhole yard.old }
    ensures { OnOk result (string_bytes text.new ≡ string_bytes text.old ++ report_text SLI (world_in yard.old).heaps) }
{
    match yard {
        RacedYard::OverLanes(workers) => write_reports(text, workers),
        RacedYard::OverQueues(workers) => write_reports(text, workers),
    }
}
