//! The report lines of heaps.
ghost use Rattle.std.specs.Prelude.{◌≡◌, ◌++◌, ◌≤◌, length, map, OnOk, string_bytes};
ghost use Rattle.tlsf_crew.specs.worker.Workers.{heap_of};
ghost use Rattle.tlsf_trace.specs.ReportLines.{report_line, report_text};

use std::alloc::AllocError;
use tlsf_crew::{Ports, Worker};
use tlsf_heap::Report;

// Adds the line of a heap, with its line feed.
fn write_line(text: &mut String, heap: u32, report: &Report) -> Result<(), AllocError>
    ensures { OnOk result (string_bytes text.new ≡ string_bytes text.old ++ report_line heap report.now) }
{
    writeln!(
        text,
        "heap {heap} live {} {} {} free {} {} largest {} grant {} fragmentation {} waste {} age {}",
        report.live_blocks,
        report.live_words,
        report.live_bytes,
        report.free_blocks,
        report.free_words,
        report.largest,
        report.grant,
        report.fragmentation,
        report.waste,
        report.age
    )
}

/// Adds the lines of the workers' heaps, whatever their ports.
pub fn write_reports<const SLI: u32, P: Ports>(
    text: &mut String,
    workers: &mut [Worker<SLI, P>],
) -> Result<(), AllocError>
    requires { length workers.old ≤ 8 }
    ensures { OnOk result (string_bytes text.new ≡ string_bytes text.old ++ report_text SLI (map heap_of workers.old)) }
{
    for number in 0..workers.len() {
        let report = workers[number].report();
        write_line(text, number as u32, &report)?;
    }
    Ok(())
}
