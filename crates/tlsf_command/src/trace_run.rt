use crate::quotes::quoted;
use crate::run_number::RunNumber;
use std::alloc::{AllocError, Global};
use tlsf_picture::Form;

/// The work of a command on the trace that it reads from standard input.
#[derive(Clone, Copy)]
pub enum TraceRun {
    /// `tlsf replay`: write its replies and a report on each heap.
    Replay,
    /// `tlsf replay --held`: write what each worker asks of its heap, and the words that the law asks for that.
    Held,
    /// `tlsf replay --kinds`: write the kinds of blocks that each worker holds, as options of `tlsf size`.
    /// `--heaps N` asks for it too, with a number.
    HeldKinds,
    /// `tlsf replay --least`: write the least words of heaps in which no request of a worker lacks room, found by replays.
    Least,
    /// `tlsf race`: run each phase in threads, one for each worker, and write its replies and reports.
    Race,
    /// `tlsf race --queues`: do so over queues, one for each worker, in place of lanes.
    RaceQueues,
    /// `tlsf map`: write a picture of the heaps that it leaves, as an SVG file or, by `--text`, in the characters of a terminal.
    Map(Form),
    /// `tlsf map --html`: write a page that shows its heaps at one moment at a time.
    MapHtml,
    /// `tlsf map --worst`: write a picture of the heaps after the line to look at, in this form.
    MapWorst(Form),
    /// `tlsf plot`: write a plot of each heap over its lines, in this form.
    Plot(Form),
    /// `tlsf check`: say what it is, or where its first fault is and what was expected there.
    Check,
}

impl TraceRun {
    ghost use Rattle.std.specs.Prelude.{◌≡◌, IfOk, string_bytes};
    ghost use Rattle.tlsf_command.specs.CommandLine as asked;

    // The words that ask for it.
    fn spelled(self) -> &'static str
        ensures { result.now ≡ asked.spelled self }
    {
        match self {
            TraceRun::Replay => "replay",
            TraceRun::Held => "replay --held",
            TraceRun::HeldKinds => "replay --kinds",
            TraceRun::Least => "replay --least",
            TraceRun::Race => "race",
            TraceRun::RaceQueues => "race --queues",
            TraceRun::Map(Form::Svg) => "map",
            TraceRun::Map(Form::Text) => "map --text",
            TraceRun::MapHtml => "map --html",
            TraceRun::MapWorst(Form::Svg) => "map --worst",
            TraceRun::MapWorst(Form::Text) => "map --worst --text",
            TraceRun::Plot(Form::Svg) => "plot",
            TraceRun::Plot(Form::Text) => "plot --text",
            TraceRun::Check => "check",
        }
    }

    /// The line that says how a trace is read from this file, with the option that gives a run its number, where that isn't 0.
    /// The word `-` is no file: it says that standard input is read without it. An `Err` says that memory ran out.
    ///
    /// ```
    /// let tip = TraceRun::Map(Form::Svg).tip(alloc, 2, "my file.trace")?;
    /// // tip is "tlsf: a trace is read from standard input: tlsf map --at 2 < 'my file.trace'\n"
    /// ```
    pub fn tip(self, alloc: Global, number: u32, file: &str) -> Result<String, AllocError>
        ensures { IfOk result (λ tip. string_bytes tip ≡ asked.tip_line self number file.now) }
    {
        let words = self.spelled();
        let option = RunNumber { run: self, number };
        if file == "-" {
            return format!(in alloc;
                "tlsf: standard input is read without '-': tlsf {words}{option}\n"
            );
        }
        let name = quoted(alloc, file)?;
        format!(in alloc;
            "tlsf: a trace is read from standard input: tlsf {words}{option} < {name}\n"
        )
    }
}
