use crate::trace_run::TraceRun;
use std::fmt;

/// The option that gives a run its number, with a space before it. It is ` --at 2` for the line of a picture, and ` --heaps 8` for
/// the heaps for which kinds are merged. Nothing for 0, which is none.
#[derive(Clone, Copy)]
pub struct RunNumber {
    /// The run that has the option.
    pub run: TraceRun,
    /// The line, counted from 1, or the heaps.
    pub number: u32,
}

impl fmt::Display for RunNumber {
    ghost use Rattle.std.specs.Prelude.{Some};
    ghost use Rattle.tlsf_command.specs.CommandLine.{number_text};

    ghost output = { λ it. Some (number_text it.run it.number) };

    fn fmt<W: fmt::Write>(&self, f: &mut fmt::Formatter<W>) -> fmt::Result {
        let number = self.number;
        if number == 0 {
            return Ok(());
        }
        match self.run {
            TraceRun::HeldKinds => write!(f, " --heaps {number}"),
            _ => write!(f, " --at {number}"),
        }
    }
}
