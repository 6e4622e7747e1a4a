//! The phases of a trace that is raced, and the script of each worker in one.
ghost use Rattle.std.specs.Prelude.{◌≡◌, ◌∷◌, ◌<◌, ◌≤◌, ◌^◌, All, List, [], length, map, IfOk, OnOk, IfSome, MatchOption, vec_len};
ghost use Rattle.std.specs.List.{range_with_len};
ghost use Rattle.tlsf_lines.specs.Phases as spelled;
ghost use Rattle.tlsf_lines.specs.Phases.{calls_from, known_in, phases_of, scripts_in};
ghost use Rattle.tlsf_lines.specs.Lines.{label_in};
ghost use Rattle.tlsf_lines.specs.CallMemory.{RecallsCallOf};
ghost use Rattle.tlsf_lines.specs.declared.line.Line.{Line as ALine};

use crate::line::Line;
use crate::names::Names;
use std::alloc::{AllocError, Global};
use tlsf_calls::Call;

/// The lines of the first phase, and those after the `phase` line that ends it, where there is one.
///
/// ```
/// // lines has "a 0 1 8", "phase", "f 0 1"
/// let (phase, behind) = cut_phase(&lines);
/// // phase has the first of them, and behind is Some of the last
/// ```
#[tactic(auto, using(crate::proofs::PhaseCuts::only_phase))]
pub fn cut_phase(lines: &[Line]) -> (&[Line], Option<&[Line]>)
    ensures phases { MatchOption result.1 (phases_of lines.now ≡ result.0.now ∷ [])
        (λ rest. phases_of lines.now ≡ result.0.now ∷ phases_of rest.now) }
    ensures shorter { IfSome result.1 (λ rest. length rest.now < length lines.now) }
    ensures few { length result.0.now ≤ length lines.now }
{
    for (i, line) in lines.iter().enumerate() {
        if !line.is_call() {
            let (phase, rest) = lines.split_at(i);
            let (_, rest) = rest.split_at(1);
            return (phase, Some(rest));
        }
    }
    (lines, None)
}

// The lines of a phase that are calls of the worker.
fn own_lines(alloc: Global, worker: u32, phase: &[Line]) -> Result<Vec<Line>, AllocError>
    ensures lines { IfOk result (λ lines. lines.items ≡ spelled.own_lines worker phase.now) }
    ensures few { IfOk result (λ lines. vec_len lines ≤ length phase.now) }
{
    // With eight workers that call alike this list does not grow.
    let mut own = Vec::with_capacity(alloc, phase.len() / 8)?;
    for line in phase {
        if line.is_of(worker) {
            own.push(*line)?;
        }
    }
    Ok(own)
}

// The call that a line stands for.
fn call_of(names: &Names, line: Line) -> Call
    ensures { (before : List ALine) → RecallsCallOf names.now.calls before line
        → result ≡ spelled.call_in (known_in names.now) before line }
{
    match line {
        Line::Allocate { len, .. } => Call::Allocate { len },
        Line::Release { label, .. } => Call::Release {
            target: names.target(label),
        },
        Line::Write {
            label,
            at,
            bytes,
            ..
        } => Call::Write {
            target: names.target(label),
            at,
            bytes,
        },
        Line::Read { label, at, n, .. } => Call::Read {
            target: names.target(label),
            at,
            n,
        },
        Line::Resize { label, len, .. } => Call::Resize {
            target: names.target(label),
            len,
        },
        Line::Drain { most, .. } => Call::Drain { most },
        // A worker's lines are calls: none of them ends a phase.
        Line::Phase => Call::Drain { most: 0 },
    }
}

// Forgets which calls make the labels of these lines.
fn forget_calls(names: &mut Names, lines: &[Line]) -> Result<(), AllocError>
    ensures names { names.new.names ≡ names.old.names }
    ensures none { OnOk result (All (RecallsCallOf names.new.calls []) lines.now) }
{
    for line in lines {
        names.forget(line)?;
    }
    Ok(())
}

// The calls that a worker's lines in a phase stand for.
fn own_calls(alloc: Global, names: &mut Names, lines: &[Line]) -> Result<Vec<Call>, AllocError>
    requires { length lines.now ≤ 32768 }
    ensures names { names.new.names ≡ names.old.names }
    ensures calls { IfOk result (λ calls. calls.items ≡ calls_from (known_in names.old) [] lines.now) }
    ensures len { IfOk result (λ calls. vec_len calls ≡ length lines.now) }
{
    forget_calls(names, lines)?;
    let mut calls = Vec::with_capacity(alloc, lines.len())?;
    for line in lines {
        let call = call_of(names, *line);
        names.remember(*line, calls.len() as u32)?;
        calls.push(call)?;
    }
    Ok(calls)
}

// The label of each line, where it has one.
pub fn labels_of(alloc: Global, lines: &[Line]) -> Result<Vec<Option<u32>>, AllocError>
    ensures { IfOk result (λ labels. labels.items ≡ map label_in lines.now) }
{
    let mut labels = Vec::with_capacity(alloc, lines.len())?;
    for line in lines {
        labels.push(line.label())?;
    }
    Ok(labels)
}

/// The calls of each worker in a phase.
///
/// ```
/// let (phase, _) = cut_phase(&trace.lines);
/// let scripts = PhaseScripts::of(alloc, trace.header.workers, &mut names, phase)?;
/// // scripts.calls[0] are the calls of worker 0 in that phase
/// ```
#[derive(Drop)]
pub struct PhaseScripts {
    /// The lines of each worker, in its order.
    pub lines: Vec<Vec<Line>>,
    /// The calls that they stand for.
    pub calls: Vec<Vec<Call>>,
}

impl PhaseScripts {
    /// The scripts of `workers` workers in a phase of at most 32,768 lines, where earlier phases gave labels these names. They stay
    /// as they are.
    ///
    /// # Errors
    ///
    /// Memory alone.
    ///
    /// ```
    /// // phase has "a 0 1 8", "f 0 1", of the one worker 0
    /// let scripts = PhaseScripts::of(alloc, 1, &mut names, phase)?;
    /// // scripts.calls[0] is an allocate of 8 bytes and a release of Target::Made(0)
    /// ```
    pub fn of(
        alloc: Global,
        workers: u32,
        names: &mut Names,
        phase: &[Line],
    ) -> Result<PhaseScripts, AllocError>
        requires { length phase.now ≤ 32768 }
        ensures names { known_in names.new ≡ known_in names.old }
        ensures lines { IfOk result (λ scripts. map (λ l. l.items) scripts.lines.items
            ≡ map (λ w. spelled.own_lines w phase.now) (range_with_len 0 workers)) }
        ensures calls { IfOk result (λ scripts. map (λ c. c.items) scripts.calls.items
            ≡ scripts_in workers (known_in names.old) phase.now) }
        ensures counts { IfOk result (λ scripts. (vec_len scripts.lines ≡ workers) × (vec_len scripts.calls ≡ workers)) }
        ensures short { IfOk result (λ scripts. All (λ c. vec_len c < 2 ^ 32) scripts.calls.items) }
    {
        let mut scripts = PhaseScripts {
            lines: Vec::new(alloc),
            calls: Vec::new(alloc),
        };
        for worker in 0..workers {
            let lines = own_lines(alloc, worker, phase)?;
            scripts.calls.push(own_calls(alloc, names, &lines)?)?;
            scripts.lines.push(lines)?;
        }
        Ok(scripts)
    }
}
