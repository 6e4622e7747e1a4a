//! The plot of some heaps as an SVG file.
ghost use Rattle.std.specs.Prelude.{◌≤◌, ◌^◌, ◌∷◌, length, OnOk, string_bytes};
ghost use Rattle.tlsf_map.specs.Told.{Adds, all_told};
ghost use Rattle.tlsf_picture.specs.plots.Told.{chart_told};
ghost use Rattle.tlsf_picture.specs.declared.plots.svg.TheConstants.{COLOURS};

use crate::plots::axis::{write_axis, write_marks};
use crate::plots::chart::Chart;
use crate::plots::point::Point;
use crate::plots::series::Series;
use crate::plots::standing::Standing;
use crate::plots::told::{Parts, always_fit, bytes, kind_of, no_fit, plural, write_told};
use std::alloc::{AllocError, Global};

// Colours by the reader's scheme.
const STYLE: &str =
    "<style>text{font:13px ui-monospace,Menlo,Consolas,monospace;fill:#1f2328}.name{font-weight:600}.scale,.bytes,.at{font-size:11px}.scale{text-anchor:end}.at{text-anchor:middle;paint-order:stroke;stroke:#fff;stroke-width:4px}svg{background:#fff}.page{fill:#fff}.frame{fill:#f3f5f8}path{fill:none;stroke-width:1.5;vector-effect:non-scaling-stroke}.live{fill:#4f83cc;stroke:#2b4f86}.asked{stroke:#c2701c}.free{fill:#8fd0b1;stroke:#2e9e6b}.largest{stroke:#7a2fb0}.fragmentation{fill:#c9b3ea;stroke:#8257c9}.refused{fill:#b4232a;stroke:#b4232a}.asked,.largest{fill:none}.capacity,.tick,.peak{stroke:#1f2328}.capacity,.tick{stroke-width:1}.peak{stroke-dasharray:2 3}.mark{stroke:#b4232a;stroke-dasharray:6 3}@media(prefers-color-scheme:dark){text{fill:#e6edf3}.at{stroke:#0d1117}svg{background:#0d1117}.page{fill:#0d1117}.frame{fill:#1b222c}.live{fill:#2f5a99;stroke:#7fb0f5}.asked{stroke:#f0a050}.free{fill:#1c5c40;stroke:#45c48a}.largest{stroke:#d2a8ff}.fragmentation{fill:#4a3575;stroke:#a98bea}.refused{fill:#ff7b72;stroke:#ff7b72}.capacity,.tick,.peak{stroke:#e6edf3}.mark{stroke:#ff7b72}}</style><rect class='page' width='100%' height='100%'/>\n";

// The meaning of each colour.
const COLOURS: &str =
    "<g transform='translate(0 28)'><rect class='live' x='80' width='12' height='12'/><text x='98' y='11'>live words</text><rect class='asked' x='200' width='12' height='12'/><text x='218' y='11'>words asked for</text><rect class='free' x='352' width='12' height='12'/><text x='370' y='11'>free words</text><rect class='largest' x='472' width='12' height='12'/><text x='490' y='11'>largest free block</text><rect class='fragmentation' x='648' width='12' height='12'/><text x='666' y='11'>fragmentation, thousandths</text><rect class='refused' x='888' width='12' height='12'/><text x='906' y='11'>call refused</text><path class='capacity' d='M80 27h12'/><text x='98' y='31'>the words of the heap</text><path class='mark' d='M278 21v12'/><text x='290' y='31'>worst or fullest moment</text><path class='peak' d='M486 21v12'/><text x='498' y='31'>peak: most words live</text><text x='690' y='31'>tlsf map --at LINE draws the heaps then</text><text x='80' y='51'>a point that stands for several lines shows the worst of each number: most live words, fewest free ones</text></g>\n";

// Adds a line: a step for each point, one unit wide for it, and one high for each word or thousandth.
fn write_line(text: &mut String, series: Series, curve: &[Point]) -> Result<(), AllocError> {
    let class = series.class();
    write!(text, "<path class='{class}' d='M0 0")?;
    for at in 0..curve.len() {
        let number = series.of(&curve[at]);
        let end = at + 1;
        write!(text, "V{number}H{end}")?;
    }
    text.push_str("V0'/>\n")
}

// Adds some lines, one over the other, and ends their frame.
fn write_lines(text: &mut String, lines: &[Series], curve: &[Point]) -> Result<(), AllocError> {
    for series in lines {
        write_line(text, *series, curve)?;
    }
    text.push_str("</g></svg>\n")
}

// Begins a frame for `count` points and for numbers up to `top`; one of these is `unit` units high.
fn write_frame(
    text: &mut String,
    y: u32,
    height: u32,
    count: usize,
    top: u64,
    unit: u32,
) -> Result<(), AllocError> {
    write!(
        text,
        "<svg x='80' y='{y}' width='960' height='{height}' viewBox='0 0 {count} {top}' preserveAspectRatio='none'><rect class='frame' width='{count}' height='{top}'/><g transform='matrix(1 0 0 -{unit} 0 {top})'>\n"
    )
}

// Adds a frame with some lines of a heap of this many words, on a scale of `shown` words. An eighth of a word is one high, so that
// these are eight ninths of the height.
fn write_words_frame(
    text: &mut String,
    y: u32,
    words: u32,
    shown: u32,
    lines: &[Series],
    curve: &[Point],
) -> Result<(), AllocError>
    requires { y ≤ 2 ^ 16 }
{
    let upper = y + 24;
    let middle = y + 38;
    let lower = y + 180;
    let bytes = 8 * u64::from(shown);
    write!(
        text,
        "<text class='scale' x='72' y='{upper}'>{shown}</text><text class='scale' x='72' y='{middle}'>words</text><text class='scale' x='72' y='{lower}'>0</text><text class='bytes' x='1046' y='{upper}'>{bytes}</text><text class='bytes' x='1046' y='{middle}'>bytes</text>"
    )?;
    let count = curve.len();
    write_frame(text, y, 180, count, 9 * u64::from(shown), 8)?;
    if shown == words {
        write!(text, "<path class='capacity' d='M0 {words}H{count}'/>\n")?;
        return write_lines(text, lines, curve);
    }
    write_lines(text, lines, curve)?;
    write!(
        text,
        "<text class='scale' x='1032' y='{upper}'>words 0 to {shown} of {words}</text>\n"
    )
}

// Adds a frame with a mark for each point in which a call was refused.
fn write_strip(text: &mut String, curve: &[Point]) -> Result<(), AllocError> {
    write_frame(text, 568, 12, curve.len(), 1, 1)?;
    text.push_str("<path class='refused' d='")?;
    for at in 0..curve.len() {
        if curve[at].refused {
            write!(text, "M{at} 0h1v1h-1z")?;
        }
    }
    text.push_str("'/>\n</g></svg>\n")
}

// The scale of the live words of a heap: all its words, or ten times its peak where that is less.
fn scale_for(words: u32, peak: u32) -> u32 {
    if peak == 0 {
        words
    } else {
        words.min(peak.saturating_mul(10))
    }
}

// Adds the frames of a heap: words live and asked for, words free and of the greatest free block, fragmentation, and refused calls.
fn write_frames(text: &mut String, chart: &Chart) -> Result<(), AllocError> {
    let words = chart.words;
    let shown = scale_for(words, chart.peak.live);
    let curve = &chart.curve;
    write_words_frame(
        text,
        80,
        words,
        shown,
        &[Series::Live, Series::Asked],
        curve,
    )?;
    write_words_frame(
        text,
        292,
        words,
        words,
        &[Series::Free, Series::Largest],
        curve,
    )?;
    text.push_str(
        "<text class='scale' x='72' y='504'>1000</text><text class='scale' x='72' y='556'>0</text>",
    )?;
    write_frame(text, 492, 64, curve.len(), 1000, 1)?;
    write_lines(text, &[Series::Fragmentation], curve)?;
    write_strip(text, curve)
}

// The text after the line to look at: how the heap stands there.
fn look_of(alloc: Global, longest: u32, standing: Standing) -> Result<String, AllocError> {
    let mut text = String::new(alloc);
    let bytes = 8 * u64::from(standing.words());
    match standing {
        Standing::NoRoom { .. } => {
            let fit = no_fit(longest);
            write!(text, " ({bytes} bytes) free, and {longest} {fit}")?;
        }
        Standing::Room { fragmentation, .. } => {
            let fit = always_fit(longest);
            write!(
                text,
                " ({bytes} bytes) live, fragmentation {fragmentation}/1000, and {longest} {fit}"
            )?;
        }
    }
    text.push_str("</text>\n<text x='80' y='58'>")?;
    Ok(text)
}

// The texts around the numbers of a heap, whose plot begins at this height.
fn parts_of(alloc: Global, y: usize, chart: &Chart) -> Result<Parts, AllocError> {
    let mut begin = String::new(alloc);
    write!(
        begin,
        "<g transform='translate(0 {y})'><text class='name' x='80' y='22'>"
    )?;
    let mut name = String::new(alloc);
    let room = 8 * u64::from(chart.words);
    write!(name, " ({room} bytes), ")?;
    let mut longest = String::new(alloc);
    let unit = bytes(chart.longest);
    let stride = chart.stride;
    let lines = plural(stride, "line", "lines");
    let kind = kind_of(chart.look.standing);
    write!(
        longest,
        " {unit}, {stride} {lines} a point</text>\n<text x='80' y='40'>{kind}"
    )?;
    let look = look_of(alloc, chart.longest, chart.look.standing)?;
    let mut peak = String::new(alloc);
    let live = 8 * u64::from(chart.peak.live);
    write!(peak, " ({live} bytes) live</text>\n")?;
    write_frames(&mut peak, chart)?;
    write_axis(&mut peak, chart.lines)?;
    write_marks(&mut peak, chart)?;
    peak.push_str("</g>\n")?;
    Ok(Parts {
        begin,
        name,
        longest,
        look,
        peak,
    })
}

// Adds a heap, at this height.
fn write_chart(alloc: Global, text: &mut String, y: usize, chart: &Chart) -> Result<(), AllocError>
    ensures { OnOk result (Adds (chart_told chart.now) (string_bytes text.old) (string_bytes text.new)) }
{
    let parts = parts_of(alloc, y, chart)?;
    write_told(text, chart, &parts)
}

#[tactic(auto, using(tlsf_map::proofs::Telling::adds_none, tlsf_map::proofs::Telling::adds_next, tlsf_map::proofs::Telling::adds_all))]
fn write_charts(alloc: Global, text: &mut String, charts: &[Chart]) -> Result<(), AllocError>
    requires { length charts.now ≤ 8 }
    ensures { OnOk result (Adds (all_told chart_told charts.now) (string_bytes text.old) (string_bytes text.new)) }
{
    for number in 0..charts.len() {
        write_chart(alloc, text, 96 + 632 * number, &charts[number])?;
    }
    Ok(())
}

/// Adds the plot of heaps, at most eight.
///
/// ```text
/// let mut text = String::new(alloc);
/// write_svg(alloc, &mut text, &charts)?;      // "<svg xmlns='http://www.w3.org/2000/svg' width='1104' .."
/// ```
///
/// # Errors
///
/// Where memory runs out.
pub fn write_svg(alloc: Global, text: &mut String, charts: &[Chart]) -> Result<(), AllocError>
    requires { length charts.now ≤ 8 }
    ensures { OnOk result (Adds (COLOURS.now ∷ all_told chart_told charts.now) (string_bytes text.old) (string_bytes text.new)) }
{
    let height = 96 + 632 * charts.len();
    write!(
        text,
        "<svg xmlns='http://www.w3.org/2000/svg' width='1104' height='{height}' viewBox='0 0 1104 {height}'>\n"
    )?;
    text.push_str(STYLE)?;
    text.push_str(COLOURS)?;
    write_charts(alloc, text, charts)?;
    text.push_str("</svg>\n")?;
    Ok(())
}
