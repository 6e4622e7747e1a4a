ghost use Rattle.std.specs.Prelude.{◌≡◌, [], codes, false, map, None, IfOk};
ghost use Rattle.clap.specs.Words.{app_of, new_app, subcommand_of, subcommand_rows_of, with_subcommand, App, FailsBy};
ghost use Rattle.tlsf_command.specs.Arguments.{texts_of};
ghost use Rattle.tlsf_command.specs.CommandLine.{bare_app, check_app, classes_app, count_rule, file_rule, flag_rule, heaps_rule, level_rule, line_rule, map_app, plot_app, race_app, replay_app, size_app, size_rule, tlsf_app, trace_app, faults_of, form_by, map_by, number_for, race_by, replay_by, run_asked, takes_number, Asks, IsArg, IsAskedBy, IsCommand, IsOf, IsRunOn};

use crate::VERSION;
use crate::arguments::{is_given, number_given};
use crate::class_question::ClassQuestion;
use crate::help::{
    CHECK_HELP, CLASSES_HELP, MAP_HELP, PLOT_HELP, PROGRAM_HELP, RACE_HELP, REPLAY_HELP, SIZE_HELP,
};
use crate::rivals::{Rivals, rivals_given};
use crate::size_question::SizeQuestion;
use crate::trace_run::TraceRun;
use clap::{Arg, ArgAction, ArgMatches, Command, Error};
use std::alloc::{AllocError, Global};
use std::convert::AsStr;
use tlsf_picture::Form;

/// The request of a command line.
#[derive(Drop)]
pub enum Choice {
    /// A command that reads a trace from standard input, with no word behind it: do so.
    Trace(TraceRun),
    /// One with words behind it, as the names of files: say by this line how a trace is read from the first. None is read.
    File(TraceRun, String),
    /// `tlsf classes N`: write the class and the search class of a size of N words, 4 to 2^20, to
    /// standard output. With `--level 5` those at level 5, of 4 to 2^24 words.
    Classes(ClassQuestion),
    /// `tlsf size --blocks B --bytes N ..`: write the words of a region to standard output. It never refuses a program of at most B
    /// blocks of at most N bytes each at once, for each pair. With `--split` those of several heaps.
    Size(SizeQuestion),
    /// `tlsf map --at K`: write a picture of the heaps of a trace as they stand after its line K, 1 to 2^32 - 1, in this form.
    At(Form, u32),
    /// `tlsf replay --kinds --heaps N`, or without `--kinds`: write the kinds of blocks that each worker holds, merged for N heaps, 1 to 8.
    Heaps(u32),
    /// Two options that exclude each other: say so. Nothing is read.
    Excluded(Rivals),
}

// A command of this name with its texts: one line, and the whole help.
fn described<'a>(alloc: Global, name: &'a str, about: &'a str, help: &'a str) -> Command<'a>
    ensures { IsOf (new_app name.entry.now) result }
{
    Command::new(alloc, name).about(about).after_help(help)
}

// The size that `classes` asks for.
fn size_argument<'a>(alloc: Global) -> Arg<'a>
    ensures { IsArg size_rule result }
{
    Arg::new(alloc, "N")
        .help("A size in words")
        .required(true)
        .action(ArgAction::Set)
        .value_parser(clap::value_parser!(u32).range(4..=16_777_216))
}

// The level of the classes, or of the heap, by its first name alone.
fn level_by_name<'a>(alloc: Global) -> Arg<'a>
    ensures { IsArg (record level_rule { aliases = [] }) result }
{
    Arg::new(alloc, "level")
        .long("level")
        .help("How fine classes are: 4 if not given, or 5")
        .action(ArgAction::Set)
        .value_parser(clap::value_parser!(u32).range(4..=5))
}

// The level of the classes, or of the heap.
fn level_argument<'a>(alloc: Global) -> Result<Arg<'a>, AllocError>
    ensures { IfOk result (IsArg level_rule) }
{
    level_by_name(alloc).visible_alias("sli")
}

// The command `classes`.
fn classes_command<'a>(alloc: Global) -> Result<Command<'a>, AllocError>
    ensures { IfOk result (IsOf classes_app) }
{
    let about = "Write the class and the search class of a size in words";
    let command = described(alloc, "classes", about, CLASSES_HELP).arg(size_argument(alloc))?;
    command.arg(level_argument(alloc)?)
}

// An option of `size`, which takes a number each time it is given.
fn count_option<'a>(alloc: Global, id: &'a str, name: &'a str, help: &'static str) -> Arg<'a>
    ensures { IsArg (count_rule id.entry.now name.entry.now) result }
{
    Arg::new(alloc, id)
        .long(name)
        .help(help)
        .required(true)
        .action(ArgAction::Append)
        .value_parser(clap::value_parser!(u32).range(1..=4_294_967_295))
}

// A flag of a command.
fn flag<'a>(alloc: Global, name: &'a str, help: &'static str) -> Arg<'a>
    ensures { IsArg (flag_rule name.entry.now) result }
{
    Arg::new(alloc, name)
        .long(name)
        .help(help)
        .action(ArgAction::SetTrue)
}

// A word behind a command that reads a trace, as the name of a file. The help doesn't tell of it, since no file is read.
fn file_argument<'a>(alloc: Global) -> Arg<'a>
    ensures { IsArg file_rule result }
{
    Arg::new(alloc, "FILE").hide(true).action(ArgAction::Append)
}

// A command that reads a trace, with a flag.
fn trace_command<'a>(
    alloc: Global,
    name: &'a str,
    usage: &'a str,
    about: &'a str,
    help: &'a str,
    flag_name: &'a str,
    flag_help: &'static str,
) -> Result<Command<'a>, AllocError>
    ensures { IfOk result (IsOf (trace_app name.entry.now flag_name.entry.now)) }
{
    let plain = described(alloc, name, about, help).override_usage(usage);
    let command = plain.arg(flag(alloc, flag_name, flag_help))?;
    command.arg(file_argument(alloc))
}

// The heaps for which `replay` merges kinds.
fn heaps_argument<'a>(alloc: Global) -> Arg<'a>
    ensures { IsArg heaps_rule result }
{
    Arg::new(alloc, "H")
        .long("heaps")
        .help("Merge these kinds for H pools, 1 to 8, of the fewest words")
        .action(ArgAction::Set)
        .value_parser(clap::value_parser!(u32).range(1..=8))
}

// The command `replay`.
fn replay_command<'a>(alloc: Global) -> Result<Command<'a>, AllocError>
    ensures { IfOk result (IsOf replay_app) }
{
    let usage = "tlsf replay [OPTIONS] < TRACE";
    let about = "Run the trace on standard input, and write its replies";
    let flag_help = "Write how large the heaps must be for these calls";
    let command = trace_command(
        alloc,
        "replay",
        usage,
        about,
        REPLAY_HELP,
        "held",
        flag_help,
    )?;
    let kinds_help = "Write the kinds of blocks that are held, for 'tlsf size'";
    let kinds = command.arg(flag(alloc, "kinds", kinds_help))?;
    let least_help = "Write how small the heaps may be for these calls alone";
    let least = kinds.arg(flag(alloc, "least", least_help))?;
    least.arg(heaps_argument(alloc))
}

// The command `race`.
fn race_command<'a>(alloc: Global) -> Result<Command<'a>, AllocError>
    ensures { IfOk result (IsOf race_app) }
{
    let usage = "tlsf race [OPTIONS] < TRACE";
    let about = "Run the trace on standard input, with a thread for each worker";
    let flag_help = "Post into one queue for each worker, in place of lanes";
    trace_command(alloc, "race", usage, about, RACE_HELP, "queues", flag_help)
}

// The line after which `map` draws the heaps.
fn line_argument<'a>(alloc: Global) -> Arg<'a>
    ensures { IsArg line_rule result }
{
    Arg::new(alloc, "K")
        .long("at")
        .help("Draw the heaps as they stand behind line K of the trace")
        .action(ArgAction::Set)
        .value_parser(clap::value_parser!(u32).range(1..=4_294_967_295))
}

// The command `map`.
fn map_command<'a>(alloc: Global) -> Result<Command<'a>, AllocError>
    ensures { IfOk result (IsOf map_app) }
{
    let usage = "tlsf map [OPTIONS] < TRACE";
    let about = "Draw the heaps that the trace on standard input leaves";
    let flag_help = "Draw the heaps in the characters of a terminal";
    let command = trace_command(alloc, "map", usage, about, MAP_HELP, "text", flag_help)?;
    let lined = command.arg(line_argument(alloc))?;
    let worst_help = "Draw the heaps behind the line that 'tlsf plot' names";
    let worst = lined.arg(flag(alloc, "worst", worst_help))?;
    let html_help = "Write a page that shows the heaps at one moment at a time";
    worst.arg(flag(alloc, "html", html_help))
}

// The command `plot`.
fn plot_command<'a>(alloc: Global) -> Result<Command<'a>, AllocError>
    ensures { IfOk result (IsOf plot_app) }
{
    let usage = "tlsf plot [OPTIONS] < TRACE";
    let about = "Plot the heaps over the lines of the trace on standard input";
    let flag_help = "Plot the heaps in the characters of a terminal";
    trace_command(alloc, "plot", usage, about, PLOT_HELP, "text", flag_help)
}

// The command `check`.
fn check_command<'a>(alloc: Global) -> Result<Command<'a>, AllocError>
    ensures { IfOk result (IsOf check_app) }
{
    let about = "Say what is wrong with the trace on standard input, and where";
    let plain = described(alloc, "check", about, CHECK_HELP);
    plain
        .override_usage("tlsf check < TRACE")
        .arg(file_argument(alloc))
}

// The command `size`.
fn size_command<'a>(alloc: Global) -> Result<Command<'a>, AllocError>
    ensures { IfOk result (IsOf size_app) }
{
    let about = "Write how large a heap must be so that no request lacks room";
    let blocks_help = "The most blocks that are held at once";
    let bytes_help = "The most bytes of a request";
    let command = described(alloc, "size", about, SIZE_HELP).arg(count_option(
        alloc,
        "B",
        "blocks",
        blocks_help,
    ))?;
    let paired = command.arg(count_option(alloc, "N", "bytes", bytes_help))?;
    let split_help = "Give the kinds to several heaps, for the fewest words";
    let fine = paired.arg(level_argument(alloc)?)?;
    fine.arg(flag(alloc, "split", split_help))
}

// The program's version and texts, with no command yet.
fn bare_command<'a>(alloc: Global) -> Command<'a>
    ensures { app_of result ≡ bare_app }
{
    let about = "Proved real-time heaps with posts between their owners: two-level segregated fit";
    described(alloc, "tlsf", about, PROGRAM_HELP)
        .version(VERSION)
        .subcommand_required(true)
}

// The program with one more command, where that could be made.
fn with_command<'a>(
    program: Command<'a>,
    added: Result<Command<'a>, AllocError>,
) -> Result<Command<'a>, AllocError>
    ensures { (app sub : App) → app_of program.entry ≡ app → IfOk added.entry (IsOf sub)
        → IfOk result (λ command. app_of command ≡ with_subcommand app sub.top) }
{
    program.subcommand(added?)
}

// The program's commands and texts.
fn tlsf_command<'a>(alloc: Global) -> Result<Command<'a>, AllocError>
    ensures { IfOk result (λ command. app_of command ≡ tlsf_app) }
{
    let replaying = with_command(bare_command(alloc), replay_command(alloc))?;
    let racing = with_command(replaying, race_command(alloc))?;
    let counting = with_command(racing, classes_command(alloc))?;
    let sizing = with_command(counting, size_command(alloc))?;
    let mapping = with_command(sizing, map_command(alloc))?;
    let plotting = with_command(mapping, plot_command(alloc))?;
    with_command(plotting, check_command(alloc))?.bin_name("tlsf")
}

// The matches that `clap` makes of the words.
fn parse<'a, S: AsStr>(alloc: Global, words: &'a [S]) -> Result<ArgMatches<'a>, Error>
    ensures named { IfOk result (λ matches. subcommand_rows_of matches
        ≡ subcommand_of tlsf_app (map S.text words.entry.now)) }
    ensures kinds { FailsBy (faults_of (map S.text words.entry.now)) result }
{
    tlsf_command(alloc)?.try_get_matches_from(words)
}

// The form of a picture or a plot, by the flag `--text`.
fn form_of(text: bool) -> Form
    ensures { result ≡ form_by text }
{
    if text { Form::Text } else { Form::Svg }
}

// The run that `replay` asks for by its flags. The number of heaps asks for kinds too.
fn replay_of(kinds: bool, least: bool, held: bool) -> TraceRun
    ensures { result ≡ replay_by kinds least held }
{
    match (kinds, least, held) {
        (true, _, _) => TraceRun::HeldKinds,
        (false, true, _) => TraceRun::Least,
        (false, false, true) => TraceRun::Held,
        (false, false, false) => TraceRun::Replay,
    }
}

// The run that `race` asks for by its flag.
fn race_of(queues: bool) -> TraceRun
    ensures { result ≡ race_by queues }
{
    if queues {
        TraceRun::RaceQueues
    } else {
        TraceRun::Race
    }
}

// The run that `map` asks for by its flags.
fn map_of(html: bool, worst: bool, form: Form) -> TraceRun
    ensures { result ≡ map_by html worst form }
{
    match (html, worst) {
        (true, _) => TraceRun::MapHtml,
        (false, true) => TraceRun::MapWorst(form),
        (false, false) => TraceRun::Map(form),
    }
}

// The run that a command which reads a trace asks for by its flags.
fn run_of(name: &str, given: &ArgMatches<'_>) -> TraceRun
    ensures { result ≡ run_asked name.now (texts_of given.now) }
{
    match name {
        "race" => race_of(is_given(given, "queues")),
        "map" => {
            let form = form_of(is_given(given, "text"));
            map_of(is_given(given, "html"), is_given(given, "worst"), form)
        }
        "plot" => TraceRun::Plot(form_of(is_given(given, "text"))),
        "check" => TraceRun::Check,
        // `replay` is the one that is left.
        _ => replay_of(
            is_given(given, "kinds") || number_given(given, "H", 0) > 0,
            is_given(given, "least"),
            is_given(given, "held"),
        ),
    }
}

// The number that is given to a run, 0 where none is: the line of a picture, or the heaps for which kinds are merged.
fn number_of(run: TraceRun, given: &ArgMatches<'_>) -> u32
    ensures { result ≡ number_for run (texts_of given.now) }
{
    match run {
        TraceRun::Map(_) => number_given(given, "K", 0),
        TraceRun::HeldKinds => number_given(given, "H", 0),
        _ => 0,
    }
}

// The choice of a run with this number, 0 for none, where no word stands behind its command.
fn unnamed(run: TraceRun, number: u32) -> Choice
    requires { takes_number run ≡ false → number ≡ 0 }
    ensures { IsRunOn run number [] result }
{
    if number == 0 {
        return Choice::Trace(run);
    }
    match run {
        TraceRun::Map(form) => Choice::At(form, number),
        // The run that is left merges kinds.
        _ => Choice::Heaps(number),
    }
}

// The choice of a run with this number, where these words stand behind its command.
fn run_on(alloc: Global, run: TraceRun, number: u32, files: &[&str]) -> Result<Choice, AllocError>
    requires { takes_number run ≡ false → number ≡ 0 }
    ensures { IfOk result (IsRunOn run number (map (λ text. text.now) files.now)) }
{
    match files.first() {
        None => Ok(unnamed(run, number)),
        Some(file) => Ok(Choice::File(run, run.tip(alloc, number, file)?)),
    }
}

// The choice of a run by the matches of its command.
fn run_given(alloc: Global, run: TraceRun, given: &ArgMatches<'_>) -> Result<Choice, AllocError>
    ensures { IfOk result (IsRunOn run (number_for run (texts_of given.now)) (texts_of given.now (codes "FILE"))) }
{
    let number = number_of(run, given);
    match given.get_raw("FILE") {
        Some(files) => run_on(alloc, run, number, files),
        None => run_on(alloc, run, number, &[]),
    }
}

// The request of the command of this name, by its matches.
fn chosen(alloc: Global, name: &str, given: &ArgMatches<'_>) -> Result<Choice, AllocError>
    requires { IsCommand name.now }
    ensures { IfOk result (λ choice. IsAskedBy choice name.now (texts_of given.now)) }
{
    match name {
        "classes" => Ok(Choice::Classes(ClassQuestion::given(given))),
        "size" => Ok(Choice::Size(SizeQuestion::given(alloc, given)?)),
        _ => match rivals_given(name, given) {
            Some(rivals) => Ok(Choice::Excluded(rivals)),
            None => run_given(alloc, run_of(name, given), given),
        },
    }
}

/// Reads the words of a command line, the program's name first.
///
/// An `Err` is the words of `clap`: a usage error, the help or version text that was asked for, or that memory ran out.
///
/// ```
/// let choice = choose(alloc, &["tlsf", "classes", "460"])?;
/// // choice is Choice::Classes(ClassQuestion::Coarse(460))
/// ```
pub fn choose<'a, S: AsStr>(alloc: Global, words: &'a [S]) -> Result<Choice, Error>
    ensures asked { IfOk result (Asks (map S.text words.entry.now)) }
    ensures kinds { FailsBy (faults_of (map S.text words.entry.now)) result }
{
    let matches = parse(alloc, words)?;
    // A command is required, so words without one came to an error before.
    let Some((name, given)) = matches.subcommand() else {
        unreachable!();
    };
    Ok(chosen(alloc, name, given)?)
}
