use crate::quantity::Quantity;
use std::fmt;
use tlsf_pool::Split;

/// The hint of a refusal to several heaps: how many, and of how many words together, where some are large enough.
#[derive(Clone, Copy)]
pub struct SplitHint {
    /// The cheapest way to give the kinds to them.
    pub split: Option<Split>,
}

impl fmt::Display for SplitHint {
    ghost use Rattle.std.specs.Prelude.{Some};
    ghost use Rattle.tlsf_command.specs.SizeLines.{split_hint_text};

    ghost output = { λ it. Some (split_hint_text it.split) };

    fn fmt<W: fmt::Write>(&self, f: &mut fmt::Formatter<W>) -> fmt::Result {
        match self.split {
            Some(split) => {
                let heaps = Quantity::new(split.heaps as usize, "heap");
                let words = split.words;
                let verb = if split.heaps == 1 {
                    "is"
                } else {
                    "together are"
                };
                write!(f, "; with --split {heaps} of {words} words {verb} enough")
            }
            None => Ok(()),
        }
    }
}
