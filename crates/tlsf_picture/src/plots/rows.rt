//! The plot of some heaps in the characters of a terminal.
ghost use Rattle.std.specs.Prelude.{◌∷◌, OnOk, string_bytes};
ghost use Rattle.tlsf_map.specs.Told.{Adds, all_told};
ghost use Rattle.tlsf_picture.specs.plots.Told.{chart_told};
ghost use Rattle.tlsf_picture.specs.declared.plots.rows.TheConstants.{BARS};

use crate::plots::chart::Chart;
use crate::plots::look::Look;
use crate::plots::point::Point;
use crate::plots::series::Series;
use crate::plots::standing::Standing;
use crate::plots::told::{Parts, always_fit, bytes, kind_of, no_fit, write_told};
use std::alloc::{AllocError, Global};

// The meaning of the rows.
const BARS: &str =
    "a bar stands for some lines at their worst, a full one for the number behind it\n";

// The character of a bar as high as a number is of `top`, in eighths, rounded up.
fn bar(number: u32, top: u32) -> &'static str {
    let full = u64::from(top.max(1));
    match (8 * u64::from(number) + (full - 1)) / full {
        0 => " ",
        1 => "▁",
        2 => "▂",
        3 => "▃",
        4 => "▄",
        5 => "▅",
        6 => "▆",
        7 => "▇",
        _ => "█",
    }
}

// Adds a row with a bar for each point.
fn write_row(
    text: &mut String,
    series: Series,
    top: u32,
    curve: &[Point],
) -> Result<(), AllocError> {
    text.push_str(series.title())?;
    for point in curve {
        text.push_str(bar(series.of(point), top))?;
    }
    write!(text, "| {top}\n")
}

// The most words that are live or asked for, 1 where there are none.
fn top_of(curve: &[Point]) -> u32 {
    let mut top = 1;
    for point in curve {
        top = top.max(point.live.max(point.asked));
    }
    top
}

fn write_rows(text: &mut String, words: u32, curve: &[Point]) -> Result<(), AllocError> {
    let top = top_of(curve);
    write_row(text, Series::Live, top, curve)?;
    write_row(text, Series::Asked, top, curve)?;
    write_row(text, Series::Free, words, curve)?;
    write_row(text, Series::Largest, words, curve)?;
    write_row(text, Series::Fragmentation, 1000, curve)?;
    text.push_str("refused       |")?;
    for point in curve {
        text.push_str(if point.refused { "!" } else { " " })?;
    }
    text.push_str("|\n")
}

// The text after the line to look at: how the heap stands there.
fn look_of(alloc: Global, longest: u32, look: Look) -> Result<String, AllocError> {
    let mut text = String::new(alloc);
    let line = look.line;
    match look.standing {
        Standing::NoRoom { .. } => {
            let fit = no_fit(longest);
            write!(text, " free, and {longest} {fit}\n  tlsf map --at {line}\n")?;
        }
        Standing::Room { fragmentation, .. } => {
            let fit = always_fit(longest);
            write!(
                text,
                " live, fragmentation {fragmentation}/1000\n  and {longest} {fit}: tlsf map --at {line}\n"
            )?;
        }
    }
    Ok(text)
}

// The texts around the numbers of a heap.
fn parts_of(alloc: Global, chart: &Chart) -> Result<Parts, AllocError> {
    let mut begin = String::new(alloc);
    begin.push_str("\n")?;
    let mut name = String::new(alloc);
    name.push_str(", ")?;
    let mut longest = String::new(alloc);
    let unit = bytes(chart.longest);
    let stride = chart.stride;
    let kind = kind_of(chart.look.standing);
    write!(longest, " {unit}; lines a column: {stride}\n{kind}")?;
    let look = look_of(alloc, chart.longest, chart.look)?;
    let mut peak = String::new(alloc);
    let live = 8 * u64::from(chart.peak.live);
    let line = chart.peak.line;
    write!(peak, " ({live} bytes) live: tlsf map --at {line}\n")?;
    write_rows(&mut peak, chart.words, &chart.curve)?;
    Ok(Parts {
        begin,
        name,
        longest,
        look,
        peak,
    })
}

fn write_chart(alloc: Global, text: &mut String, chart: &Chart) -> Result<(), AllocError>
    ensures { OnOk result (Adds (chart_told chart.now) (string_bytes text.old) (string_bytes text.new)) }
{
    let parts = parts_of(alloc, chart)?;
    write_told(text, chart, &parts)
}

#[tactic(auto, using(tlsf_map::proofs::Telling::adds_none, tlsf_map::proofs::Telling::adds_next, tlsf_map::proofs::Telling::adds_all))]
fn write_charts(alloc: Global, text: &mut String, charts: &[Chart]) -> Result<(), AllocError>
    ensures { OnOk result (Adds (all_told chart_told charts.now) (string_bytes text.old) (string_bytes text.new)) }
{
    for number in 0..charts.len() {
        write_chart(alloc, text, &charts[number])?;
    }
    Ok(())
}

/// Adds the plot of heaps in the characters of a terminal of 80 columns, where each has at most 56 points.
///
/// ```text
/// let mut text = String::new(alloc);
/// write_text(alloc, &mut text, &charts)?;     // "a bar stands for .." and for each heap "\nheap 0: 64 words .."
/// ```
///
/// # Errors
///
/// Where memory runs out.
pub fn write_text(alloc: Global, text: &mut String, charts: &[Chart]) -> Result<(), AllocError>
    ensures { OnOk result (Adds (BARS.now ∷ all_told chart_told charts.now) (string_bytes text.old) (string_bytes text.new)) }
{
    text.push_str(BARS)?;
    write_charts(alloc, text, charts)?;
    Ok(())
}
