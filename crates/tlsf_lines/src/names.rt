ghost use Rattle.std.specs.Prelude.{◌≡◌, ℕ, List, [], ◌∷◌, length, OnOk};
ghost use Rattle.tlsf_lines.specs.ByLabel.{kept_of};
ghost use Rattle.tlsf_lines.specs.CallMemory.{RecallsCall, RecallsCallOf};
ghost use Rattle.tlsf_lines.specs.Phases.{known_in, none_known, target_by, with_name};
ghost use Rattle.tlsf_lines.specs.declared.line.Line.{Line as ALine};

use crate::by_label::ByLabel;
use crate::line::Line;
use std::alloc::{AllocError, Global};
use tlsf_calls::Target;
use tlsf_heap::Name;

/// The name that each label has from an earlier phase of a race: none where no line made it, or where that line was
/// refused.
///
/// ```
/// let mut names = Names::new(alloc);   // before the first phase
/// // behind each phase write_phase(alloc, &mut text, &mut names, ..)? gives its labels their names
/// ```
#[derive(Drop)]
pub struct Names {
    names: ByLabel<Name>,
    // The number of the call that makes each label of the script that is read, in that script. Of other labels it may have anything.
    calls: ByLabel<u32>,
}

impl Names {
    /// No label has a name.
    pub fn new(alloc: Global) -> Names
        ensures { known_in result ≡ none_known }
    {
        Names {
            names: ByLabel::new(alloc),
            calls: ByLabel::new(alloc),
        }
    }

    /// The block that a label stands for. It is the one that a call of this script makes, or the name that it has from an earlier
    /// phase.
    pub(crate) fn target(&self, label: u32) -> Target
        ensures { result ≡ target_by (kept_of self.now.calls label) (known_in self.now label) }
    {
        if let Some(call) = self.calls.get(label) {
            return Target::Made(call);
        }
        match self.names.get(label) {
            Some(name) => Target::Named(name),
            None => Target::Absent,
        }
    }

    /// Gives a label the name that its line made, if it made one.
    pub(crate) fn insert(&mut self, label: u32, name: Option<Name>) -> Result<(), AllocError>
        ensures { OnOk result (known_in self.new ≡ with_name (known_in self.old) label name) }
    {
        self.names.set(label, name)
    }

    /// Forgets which call makes the label of a line.
    pub(crate) fn forget(&mut self, line: &Line) -> Result<(), AllocError>
        ensures names { self.new.names ≡ self.old.names }
        ensures none { OnOk result (RecallsCallOf self.new.calls [] line.now) }
        ensures still { OnOk result ((label : ℕ) → RecallsCall self.old.calls [] label → RecallsCall self.new.calls [] label) }
    {
        if let Some(label) = line.label() {
            self.calls.set(label, None)?;
        }
        Ok(())
    }

    /// Lets the call of this number make the label of its line, where the line makes one.
    pub(crate) fn remember(&mut self, line: Line, call: u32) -> Result<(), AllocError>
        ensures names { self.new.names ≡ self.old.names }
        ensures calls { OnOk result ((before : List ALine) (label : ℕ) → call ≡ length before
            → RecallsCall self.old.calls before label → RecallsCall self.new.calls (line ∷ before) label) }
    {
        if let Line::Allocate { label, .. } = line {
            self.calls.set(label, Some(call))?;
        }
        Ok(())
    }
}
