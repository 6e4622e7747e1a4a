use std::fmt;

/// The hint of a refusal to level 5: how many words a region of it has that is large enough, where there is one.
#[derive(Clone, Copy)]
pub struct FinerHint {
    /// The words of that region.
    pub words: Option<u32>,
}

impl fmt::Display for FinerHint {
    ghost use Rattle.std.specs.Prelude.{Some};
    ghost use Rattle.tlsf_command.specs.SizeLines.{hint_text};

    ghost output = { λ it. Some (hint_text it.words) };

    fn fmt<W: fmt::Write>(&self, f: &mut fmt::Formatter<W>) -> fmt::Result {
        match self.words {
            Some(words) => write!(f, "; with --level 5 a region of {words} words is enough"),
            None => Ok(()),
        }
    }
}
