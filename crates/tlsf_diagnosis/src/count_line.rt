//! The line on a good trace.
ghost use Rattle.std.specs.Prelude.{◌≡◌, ◌++◌, ◌+◌, IfOk, OnOk, count_by, string_bytes};
ghost use Rattle.tlsf_diagnosis.specs.TraceLines as told;
ghost use Rattle.tlsf_diagnosis.specs.TraceLines.{trace_line};
ghost use Rattle.tlsf_lines.specs.Views.{view_trace};

use std::alloc::{AllocError, Global};
use tlsf_lines::{Line, Trace, Version};

fn number_of(version: Version) -> u32
    ensures { result ≡ told.number_of version }
{
    match version {
        Version::One => 1,
        Version::Two => 2,
    }
}

fn is_phase(line: &Line) -> bool
    ensures { result ≡ told.is_phase line.now }
{
    matches!(line, Line::Phase)
}

fn count_phase_lines(trace: &Trace) -> usize
    ensures { result ≡ count_by told.is_phase trace.now.lines.items }
{
    trace.lines.iter().filter(|line| is_phase(line)).count()
}

/// Adds a number of things, as `1 call` or `2 calls`.
pub fn push_count(text: &mut String, count: usize, thing: &str) -> Result<(), AllocError>
    ensures { OnOk result (string_bytes text.new ≡ string_bytes text.old ++ told.quantity count thing.now) }
{
    let ending = if count == 1 { "" } else { "s" };
    write!(text, "{count} {thing}{ending}")
}

/// The line that tells how many workers, calls and phases a trace has.
pub fn line_on(alloc: Global, trace: &Trace) -> Result<String, AllocError>
    ensures { IfOk result (λ line. string_bytes line ≡ trace_line (view_trace trace.now)) }
{
    let version = number_of(trace.header.version);
    let words = trace.header.words;
    let mut line = format!(in alloc; "trace of version {version}: ")?;
    push_count(&mut line, trace.header.workers as usize, "worker")?;
    write!(line, " of {words} words, ")?;
    push_count(&mut line, trace.count_calls(), "call")?;
    line.push_str(", ")?;
    push_count(&mut line, count_phase_lines(trace) + 1, "phase")?;
    line.push_str("\n")?;
    Ok(line)
}
