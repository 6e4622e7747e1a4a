ghost use Rattle.std.specs.Prelude.{◌≡◌, ℕ, ◌<◌, length, [], OnOk};
ghost use Rattle.tlsf_lines.specs.ByLabel.{IsSet, kept_of};

use std::alloc::{AllocError, Global};
use std::marker::Model;

/// One thing for each label. A contract sees a list that has it at the place of each label, as far as the list reaches.
#[derive(Drop)]
pub struct ByLabel<T> {
    // A label is at most 65535, so a table that reaches as far as the greatest one that was set is small.
    kept: Vec<Option<T>>,
}

impl<T> Model for ByLabel<T> {
    ghost use Rattle.std.specs.Prelude.{List, Option};

    ghost Value = { List (Option T) };

    ghost view = { λ by_label. by_label.kept.items };
}

impl<T: Copy> ByLabel<T> {
    /// Nothing is kept of any label.
    pub fn new(alloc: Global) -> ByLabel<T>
        ensures { result ≡ [] }
    {
        ByLabel {
            kept: Vec::new(alloc),
        }
    }

    /// The thing that is kept of a label.
    pub fn get(&self, label: u32) -> Option<T>
        ensures { result ≡ kept_of self.now label }
    {
        self.kept.get(label as usize).copied().flatten()
    }

    // Lets the table reach a label.
    fn reach(&mut self, label: u32) -> Result<(), AllocError>
        ensures same { OnOk result ((q : ℕ) → kept_of self.new q ≡ kept_of self.old q) }
        ensures len { OnOk result (label < length self.new) }
    {
        let place = label as usize;
        if self.kept.len() <= place {
            self.kept.resize(place + 1, None)?;
        }
        Ok(())
    }

    /// Keeps this of a label from now on, or nothing.
    pub fn set(&mut self, label: u32, thing: Option<T>) -> Result<(), AllocError>
        ensures { OnOk result (IsSet self.old self.new label thing) }
    {
        self.reach(label)?;
        self.kept[label as usize] = thing;
        Ok(())
    }
}
