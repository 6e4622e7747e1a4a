//! The lines that are named of each heap of a trace.
ghost use Rattle.std.specs.Prelude.{◌≡◌, ◌<◌, IfOk};
ghost use Rattle.tlsf_lines.specs.ScriptSoFar.{IsScript};
ghost use Rattle.tlsf_lines.specs.Trace.{Trace};
ghost use Rattle.tlsf_picture.specs.Pages.{AreNoted, IsNoted};
ghost use Rattle.tlsf_trace.specs.Output.{level_in};
ghost use Rattle.tlsf_picture.specs.Steps.{HasHeap, IsPlayable};

use crate::plots::curve::{peak_of, worst_line};
use crate::plots::points::{longest_of, points_of};
use std::alloc::{AllocError, Global};
use tlsf_lines::Script;
use tlsf_map::NamedLines;

// Those of a heap of a trace, at its level.
fn named_of<const SLI: u32>(
    alloc: Global,
    script: &Script,
    heap: u32,
) -> Result<NamedLines, AllocError>
    requires { HasHeap SLI script.now heap }
    ensures { (trace : Trace) → level_in trace.header ≡ SLI → IsScript script.now trace → IfOk result (IsNoted trace heap) }
{
    let points = points_of::<SLI>(alloc, script, heap)?;
    let longest = longest_of(heap, script);
    let look = worst_line(longest, &points);
    let peak = peak_of(&points);
    Ok(NamedLines {
        peak: peak.line,
        look: look.line,
        longest,
    })
}

/// Those of each heap of a trace, at its level. The trace is run once for each heap.
pub fn named_lines<const SLI: u32>(
    alloc: Global,
    script: &Script,
) -> Result<Vec<NamedLines>, AllocError>
    requires { IsPlayable SLI script.now }
    ensures { (trace : Trace) → level_in trace.header ≡ SLI → IsScript script.now trace → IfOk result (λ named. AreNoted trace named.items) }
{
    let mut named = Vec::new(alloc);
    for heap in 0..script.header.workers {
        named.push(named_of::<SLI>(alloc, script, heap)?)?;
    }
    Ok(named)
}
