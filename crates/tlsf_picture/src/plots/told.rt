//! The numbers that a plot tells of a heap, in either form.
ghost use Rattle.std.specs.Prelude.{OnOk, string_bytes};
ghost use Rattle.tlsf_map.specs.Told.{Adds};
ghost use Rattle.tlsf_picture.specs.plots.Told.{chart_told};

use crate::plots::chart::Chart;
use crate::plots::standing::Standing;
use std::alloc::AllocError;

/// The texts of a form around these numbers. They stand before the name of the heap, and after its name, its longest request, the
/// line to look at, and its peak.
#[derive(Drop)]
pub struct Parts {
    pub begin: String,
    pub name: String,
    pub longest: String,
    pub look: String,
    pub peak: String,
}

/// The name of one, or that of many.
pub fn plural(count: usize, one: &'static str, many: &'static str) -> &'static str {
    if count == 1 { one } else { many }
}

/// The unit of a number of bytes.
pub fn bytes(count: u32) -> &'static str {
    plural(count as usize, "byte", "bytes")
}

/// The words for a number of bytes that find no room.
pub fn no_fit(count: u32) -> &'static str {
    plural(count as usize, "byte doesn't fit", "bytes don't fit")
}

/// The words for a number of bytes that always find room.
pub fn always_fit(count: u32) -> &'static str {
    plural(count as usize, "byte always fits", "bytes always fit")
}

/// The name of the kind of moment that a heap stands at.
pub fn kind_of(standing: Standing) -> &'static str {
    match standing {
        Standing::NoRoom { .. } => "worst",
        Standing::Room { .. } => "fullest",
    }
}

/// Adds the numbers of a heap with these parts around them.
pub fn write_told(text: &mut String, chart: &Chart, parts: &Parts) -> Result<(), AllocError>
    ensures { OnOk result (Adds (chart_told chart.now) (string_bytes text.old) (string_bytes text.new)) }
{
    let heap = chart.heap;
    let words = chart.words;
    let longest = chart.longest;
    let look = chart.look.line;
    let seen = chart.look.standing.words();
    let peak = chart.peak.line;
    let live = chart.peak.live;
    text.push_str(&parts.begin)?;
    write!(text, "heap {heap}: {words} words")?;
    text.push_str(&parts.name)?;
    write!(text, "longest request {longest}")?;
    text.push_str(&parts.longest)?;
    write!(text, " moment: line {look}: {seen} words")?;
    text.push_str(&parts.look)?;
    write!(text, "peak: line {peak}: {live} words")?;
    text.push_str(&parts.peak)?;
    Ok(())
}
