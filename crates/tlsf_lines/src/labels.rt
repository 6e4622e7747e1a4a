ghost use Rattle.std.specs.Prelude.{◌≡◌, ℕ, ◌+◌, ◌<◌, ◌≤◌, ◌^◌, List, [], ◌∷◌, is_some, None, IfSome, OnOk};
ghost use Rattle.tlsf_lines.specs.Events.{maker_of, maker_used, width_in};
ghost use Rattle.tlsf_lines.specs.Labels.{can_make, can_use, is_in_order, made_of};
ghost use Rattle.tlsf_lines.specs.LabelMemory.{Recalls, Remembers};
ghost use Rattle.tlsf_lines.specs.declared.line.Line.{Line as ALine};
ghost use Rattle.tlsf_lines.specs.declared.line.Line.TheVariants.{Allocate, Phase};

use crate::by_label::ByLabel;
use crate::line::Line;
use crate::maker::Maker;
use std::alloc::{AllocError, Global};
use std::marker::Model;

/// The labels that the lines so far have made. A contract sees the phase and, at the place of each label, who made it, in
/// which phase and by which event.
#[derive(Drop)]
pub struct Labels {
    makers: ByLabel<Maker>,
    phase: u32,
}

impl Model for Labels {
    ghost use Rattle.tlsf_lines.specs.LabelMemory.{Memory};

    ghost Value = { Memory };

    ghost view = { λ labels. record { phase = labels.phase; made = labels.makers } };
}

impl Labels {
    /// No label, in phase 0, as before the first line.
    pub fn new(alloc: Global) -> Labels
        ensures remembers { Remembers result [] }
        ensures recalls { (workers : ℕ) → Recalls workers result [] }
        ensures phase { result.phase ≡ 0 }
    {
        Labels {
            makers: ByLabel::new(alloc),
            phase: 0,
        }
    }

    // The event that made a label of an earlier line, where the worker may use it. It may if it made the label, or anybody did in
    // an earlier phase.
    fn judge_use(&self, label: u32, worker: u32) -> Option<Option<u32>>
        ensures order { (before : List ALine) → Remembers self.now before
            → is_some result ≡ can_use worker (made_of label before) }
        ensures made { (workers : ℕ) (before : List ALine) → Recalls workers self.now before
            → IfSome result (λ made. made ≡ maker_of workers label before) }
    {
        let maker = self.makers.get(label)?;
        if maker.phase == self.phase && maker.worker != worker {
            return None;
        }
        Some(Some(maker.event))
    }

    // Whether no line before made a label; a line that makes one uses none.
    fn judge_making(&self, label: u32) -> Option<Option<u32>>
        ensures order { (before : List ALine) → Remembers self.now before
            → is_some result ≡ can_make (made_of label before) }
        ensures made { IfSome result (λ made. made ≡ None) }
    {
        match self.makers.get(label) {
            None => Some(None),
            Some(_) => None,
        }
    }

    /// The event that made the label that a line uses, `Some(None)` for a line that uses none. `None` where the line may not stand
    /// here: it makes a label that a line before it made. Or it uses one that no line made, or another worker in this phase.
    pub fn judge(&self, line: &Line) -> Option<Option<u32>>
        ensures order { (before : List ALine) → Remembers self.now before
            → is_some result ≡ is_in_order before line.now }
        ensures made { (workers : ℕ) (before : List ALine) → Recalls workers self.now before
            → IfSome result (λ made. made ≡ maker_used workers before line.now) }
    {
        match line {
            Line::Allocate { label, .. } => self.judge_making(*label),
            Line::Release { worker, label } => self.judge_use(*label, *worker),
            Line::Write { worker, label, .. } => self.judge_use(*label, *worker),
            Line::Read { worker, label, .. } => self.judge_use(*label, *worker),
            Line::Resize { worker, label, .. } => self.judge_use(*label, *worker),
            Line::Drain { .. } => Some(None),
            Line::Phase => Some(None),
        }
    }

    // The worker makes the label, by the event of this number.
    fn make(&mut self, label: u32, worker: u32, event: u32) -> Result<(), AllocError>
        ensures ok { OnOk result ((before : List ALine) (len : ℕ) → Remembers self.old before
            → Remembers self.new (Allocate worker label len ∷ before)) }
        ensures recalls { OnOk result ((workers len : ℕ) (before : List ALine) → Recalls workers self.old before
            → event ≡ width_in workers before → Recalls workers self.new (Allocate worker label len ∷ before)) }
        ensures phase { self.new.phase ≡ self.old.phase }
    {
        let maker = Maker {
            worker,
            phase: self.phase,
            event,
        };
        self.makers.set(label, Some(maker))?;
        Ok(())
    }

    fn end_phase(&mut self)
        requires { self.old.phase + 1 < 2 ^ 32 }
        ensures remembers { (before : List ALine) → Remembers self.old before
            → Remembers self.new (Phase ∷ before) }
        ensures made { self.new.made ≡ self.old.made }
        ensures phase { self.new.phase ≡ self.old.phase + 1 }
    {
        self.phase += 1;
    }

    /// Takes a line as one of those before, where this many events are before it.
    pub fn remember(&mut self, line: &Line, events: u32) -> Result<(), AllocError>
        requires { self.old.phase + 1 < 2 ^ 32 }
        ensures ok { OnOk result ((before : List ALine) → Remembers self.old before
            → Remembers self.new (line.now ∷ before)) }
        ensures recalls { OnOk result ((workers : ℕ) (before : List ALine) → Recalls workers self.old before
            → events ≡ width_in workers before → Recalls workers self.new (line.now ∷ before)) }
        ensures phase { self.new.phase ≤ self.old.phase + 1 }
    {
        match line {
            Line::Allocate { worker, label, .. } => self.make(*label, *worker, events)?,
            Line::Phase => self.end_phase(),
            Line::Release { .. }
            | Line::Write { .. }
            | Line::Read { .. }
            | Line::Resize { .. }
            | Line::Drain { .. } => {}
        }
        Ok(())
    }
}
