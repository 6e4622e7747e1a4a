//! The text of a trace that is raced.
ghost use Rattle.std.specs.Prelude.{◌≡◌, ℕ, [], Option, ◌≤◌, length, vec_len, string_bytes, IfOk};
ghost use Rattle.tlsf_heap.specs.declared.name.Name.{Name};
ghost use Rattle.tlsf_lines.specs.Phases.{known_in, none_known, phases_of};
ghost use Rattle.tlsf_class.specs.Classes.{IsLevel};
ghost use Rattle.tlsf_trace.specs.RaceOutput.{IsOutputBy};
ghost use Rattle.tlsf_trace.specs.RacedYards.{IsWhole, PutsOver, count_in, kind_in, races_over};
ghost use Rattle.tlsf_trace.specs.RaceSoFar.{IsPhaseRaced, IsRaceSoFar, point_at};
ghost use Rattle.tlsf_lines.specs.Ranges.{IsHeaderInRange};
ghost use Rattle.tlsf_lines.specs.Views.{view_trace};

use crate::raced_yard::{
    PortKind, RacedYard, count_workers, open_raced_yard, race_yard, report_yard,
};
use std::alloc::{AllocError, Global};
use std::marker::Sync;
use std::sync::Wait;
use std::thread::Threads;
use tlsf_crew::Gate;
use tlsf_lines::{Line, Names, PhaseScripts, Trace, Version, cut_phase, write_phase};

// Races one phase.
fn race_phase<const SLI: u32, R: Threads + Wait + Sync, G: Gate>(
    rt: &R,
    alloc: Global,
    yard: RacedYard<SLI>,
    phase: &[Line],
    names: &mut Names,
    text: &mut String,
    gate: &G,
) -> Result<RacedYard<SLI>, AllocError>
    requires whole { IsWhole yard }
    requires few { length phase.now ≤ 32768 }
    ensures kind { IfOk result (λ left. kind_in left ≡ kind_in yard.entry) }
    ensures whole { IfOk result (λ left. IsWhole left) }
    ensures count { IfOk result (λ left. count_in left ≡ count_in yard.entry) }
    ensures raced { IfOk result (λ left. IsPhaseRaced (races_over (kind_in yard.entry)) (count_in yard.entry) phase.now
        (point_at yard.entry (known_in names.old) (string_bytes text.old)) (point_at left (known_in names.new) (string_bytes text.new))) }
{
    let count = count_workers(&yard);
    let scripts = PhaseScripts::of(alloc, count, names, phase)?;
    let (left, records) = race_yard(rt, alloc, yard, scripts.calls, gate)?;
    write_phase(alloc, text, names, &scripts.lines, &records)?;
    Ok(left)
}

// Races the phases of these lines, one after another.
fn race_lines<const SLI: u32, R: Threads + Wait + Sync, G: Gate>(
    rt: &R,
    alloc: Global,
    yard: RacedYard<SLI>,
    lines: &[Line],
    text: &mut String,
    gate: &G,
) -> Result<RacedYard<SLI>, AllocError>
    requires whole { IsWhole yard }
    requires few { length lines.now ≤ 32768 }
    ensures whole { IfOk result (λ left. IsWhole left) }
    ensures raced { IfOk result (λ left. (learnt : ℕ → Option Name) × IsRaceSoFar (races_over (kind_in yard.entry)) (count_in yard.entry) (phases_of lines.now) []
        (point_at yard.entry none_known (string_bytes text.old)) (point_at left learnt (string_bytes text.new))) }
{
    let mut yard = yard;
    let mut names = Names::new(alloc);
    let mut rest = Some(lines);
    while let Some(lines) = rest {
        let (phase, behind) = cut_phase(lines);
        yard = race_phase(rt, alloc, yard, phase, &mut names, text, gate)?;
        rest = behind;
    }
    Ok(yard)
}

// The reply lines of a trace, raced phase by phase on a new yard of this level. After them comes a report line for each heap that
// the last leaves.
fn race_output_by<const SLI: u32, R: Threads + Wait + Sync, G: Gate>(
    rt: &R,
    alloc: Global,
    kind: PortKind,
    trace: &Trace,
    gate: &G,
) -> Result<String, AllocError>
    requires level { IsLevel SLI }
    requires header { IsHeaderInRange trace.now.header }
    requires lines { vec_len trace.now.lines ≤ 32768 }
    ensures { IfOk result (λ text. IsOutputBy {sli = SLI} (races_over kind) (view_trace trace.now) (string_bytes text)) }
{
    let yard = open_raced_yard::<SLI>(alloc, kind, trace.header)?;
    let mut text = String::new(alloc);
    let mut yard = race_lines(rt, alloc, yard, &trace.lines, &mut text, gate)?;
    report_yard(&mut text, &mut yard)?;
    Ok(text)
}

/// The same at the level of the trace's version.
pub(crate) fn race_output<R: Threads + Wait + Sync, G: Gate>(
    rt: &R,
    alloc: Global,
    kind: PortKind,
    trace: &Trace,
    gate: &G,
) -> Result<String, AllocError>
    requires header { IsHeaderInRange trace.now.header }
    requires lines { vec_len trace.now.lines ≤ 32768 }
    ensures { IfOk result (λ text. PutsOver kind (view_trace trace.now) (string_bytes text)) }
{
    match trace.header.version {
        Version::One => race_output_by::<4, R, G>(rt, alloc, kind, trace, gate),
        Version::Two => race_output_by::<5, R, G>(rt, alloc, kind, trace, gate),
    }
}
