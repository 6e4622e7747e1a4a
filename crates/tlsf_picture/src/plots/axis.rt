//! The axis of the lines of a trace, and the marks at two of them. Lengths are in pixels.
ghost use Rattle.std.specs.Prelude.{◌<◌, ◌≤◌, ◌^◌};

use crate::plots::chart::Chart;
use std::alloc::AllocError;

// The middle of the part that a line has of the axis of this many lines, which is 960 long and begins at 80.
fn x_at(lines: u32, line: u64) -> u64
    requires { line < 2 ^ 48 }
{
    80 + 480 * (2 * line).saturating_sub(1) / u64::from(lines.max(1))
}

// The least of 1, 2, 5, 10, 20, 50 and so on that fits at most ten times into this many lines.
fn round_step(lines: u32) -> u64
    ensures some { 0 < result }
    ensures few { result ≤ 5000 }
{
    if lines <= 10 {
        1
    } else if lines <= 20 {
        2
    } else if lines <= 50 {
        5
    } else if lines <= 100 {
        10
    } else if lines <= 200 {
        20
    } else if lines <= 500 {
        50
    } else if lines <= 1000 {
        100
    } else if lines <= 2000 {
        200
    } else if lines <= 5000 {
        500
    } else if lines <= 10_000 {
        1000
    } else if lines <= 20_000 {
        2000
    } else {
        5000
    }
}

/// Adds the axis of `lines` lines: a tick at each round number.
pub fn write_axis(text: &mut String, lines: u32) -> Result<(), AllocError> {
    let step = round_step(lines);
    text.push_str("<text class='scale' x='72' y='600'>line</text>")?;
    for number in 0..u64::from(lines) / step {
        let line = (number + 1) * step;
        let x = x_at(lines, line);
        write!(
            text,
            "<path class='tick' d='M{x} 580v6'/><text class='at' x='{x}' y='600'>{line}</text>"
        )?;
    }
    text.push_str("<text class='bytes' x='1060' y='600'>end</text>\n")
}

/// Adds the marks at the line to look at, through all frames, and at the peak, through the first.
pub fn write_marks(text: &mut String, chart: &Chart) -> Result<(), AllocError> {
    let look = chart.look.line;
    let peak = chart.peak.line;
    let x = x_at(chart.lines, u64::from(look));
    write!(
        text,
        "<path class='mark' d='M{x} 78V580'/><text class='at' x='{x}' y='74'>line {look}</text>"
    )?;
    let x = x_at(chart.lines, u64::from(peak));
    write!(
        text,
        "<path class='peak' d='M{x} 80V264'/><text class='at' x='{x}' y='276'>peak: line {peak}</text>\n"
    )
}
