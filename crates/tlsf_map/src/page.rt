//! The picture as a whole: its style, a key to its colours, and the heaps, one below the other.
ghost use Rattle.std.specs.Prelude.{◌≤◌, ◌^◌, [], ◌∷◌, length, OnOk, string_bytes};
ghost use Rattle.tlsf_map.specs.Told.{Adds, all_told, svg_told, title_of};
ghost use Rattle.tlsf_map.specs.declared.page.TheConstants.{COLOURS};

use crate::free_blocks::FreeBlocks;
use crate::grid::Grid;
use crate::group::Group;
use crate::mapped_heap::{LabelledBlock, MappedHeap};
use crate::numbers::write_numbers;
use crate::title::write_title;
use std::alloc::{AllocError, Global};

// Colours by the reader's scheme. They are dark blue, blue and orange for header, payload and the part that it leaves empty. They
// are green for free words, and violet for neighbours that are drawn as one.
const STYLE: &str =
    "<style>text{font:176px ui-monospace,Menlo,Consolas,monospace;fill:#1f2328}.name{font-size:208px;font-weight:600}.numbers,.place{font-size:144px}.place{text-anchor:end;fill-opacity:1}svg{background:#fff}.page{fill:#fff}.live{fill:#4f83cc}.head{fill:#2b4f86}.slack{fill:#e3a04f}.free{fill:#2e9e6b}.joined{fill:#8257c9}.caption text{fill:#fff;fill-opacity:1}.free .caption text{fill:#1f2328}text.fold{text-anchor:middle}rect{stroke:#fff;stroke-width:8}.free rect,rect.free{stroke:#2e9e6b}.joined rect,rect.joined{stroke:#8257c9}rect.fold{stroke-width:40;stroke-dasharray:96 96}.largest rect{stroke:#b4232a;stroke-width:32}@media(prefers-color-scheme:dark){text,.free .caption text{fill:#e6edf3}svg{background:#0d1117}.page{fill:#0d1117}rect{stroke:#0d1117}.live{fill:#3f6fb5}.head{fill:#1d3c6b}.slack{fill:#b97a2e}.joined{fill:#9d7be0}.joined rect,rect.joined{stroke:#9d7be0}.largest rect{stroke:#ff7b72}}</style><rect class='page' width='100%' height='100%'/>\n";

// The meaning of each colour.
const COLOURS: &str =
    "<g transform='translate(1024 128)'><rect class='head' width='256' height='256'/><text x='352' y='200'>header</text><rect class='live' x='2048' width='256' height='256'/><text x='2400' y='200'>payload</text><rect class='slack' x='4096' width='256' height='256'/><text x='4448' y='200'>left empty</text><g class='largest'><rect class='free' x='6656' width='256' height='256' fill-opacity='.50'/></g><text x='7008' y='200'>largest free</text><rect class='live fold' x='9728' width='1024' height='256'/><text x='10848' y='200'>one row for many alike</text><rect class='free' y='384' width='256' height='256' fill-opacity='.15'/><rect class='free' x='256' y='384' width='256' height='256' fill-opacity='.33'/><rect class='free' x='512' y='384' width='256' height='256' fill-opacity='.50'/><rect class='free' x='768' y='384' width='256' height='256' fill-opacity='.67'/><rect class='free' x='1024' y='384' width='256' height='256' fill-opacity='.85'/><text x='1376' y='584'>free: newest to oldest</text><rect class='joined' x='6656' y='384' width='256' height='256' fill-opacity='.15'/><rect class='joined' x='6912' y='384' width='256' height='256' fill-opacity='.33'/><rect class='joined' x='7168' y='384' width='256' height='256' fill-opacity='.50'/><rect class='joined' x='7424' y='384' width='256' height='256' fill-opacity='.67'/><rect class='joined' x='7680' y='384' width='256' height='256' fill-opacity='.85'/><text x='8032' y='584'>drawn as one: all free to all live</text></g>\n";

// The height at which the first heap begins, below the key.
const TOP: u64 = 1088;

// Adds the groups of some blocks, whose free ones these tell apart, and says how many blocks are drawn as one with others.
fn write_groups(
    text: &mut String,
    grid: Grid,
    free: FreeBlocks,
    blocks: &[LabelledBlock],
) -> Result<u64, AllocError> {
    if blocks.is_empty() {
        return Ok(0);
    }
    let mut group = Group::of(grid, blocks[0]);
    let mut here = grid;
    let mut joined = 0u64;
    for index in 1..blocks.len() {
        let next = blocks[index];
        if group.joins(grid, next) {
            group = group.with(next);
        } else {
            joined = joined.saturating_add(group.joined());
            group.write(text, here, free)?;
            here = group.below(here);
            group = Group::of(grid, next);
        }
    }
    group.write(text, here, free)?;
    Ok(joined.saturating_add(group.joined()))
}

// The text after the title of a heap: the words of a row, its numbers, and its blocks.
fn rows_of(alloc: Global, grid: Grid, heap: &MappedHeap) -> Result<String, AllocError> {
    let mut text = String::new(alloc);
    let row = grid.row;
    write!(
        text,
        ", {row} words a row</text>\n<text class='numbers' y='608'>"
    )?;
    write_numbers(&mut text, &heap.report, "; ")?;
    text.push_str("</text>\n")?;
    let count = write_groups(&mut text, grid, FreeBlocks::of(heap), &heap.blocks)?;
    if count > 0 {
        write!(
            text,
            "<text class='numbers' text-anchor='end' x='16384' y='320'>{count} blocks, each under 4 pixels wide, are drawn as one with neighbours</text>\n"
        )?;
    }
    text.push_str("</g>\n")?;
    Ok(text)
}

// Adds a heap in its own grid, at this height.
#[tactic(auto, using(crate::proofs::Telling::adds_between))]
fn write_heap(
    alloc: Global,
    text: &mut String,
    y: u64,
    words: u32,
    heap: &MappedHeap,
) -> Result<(), AllocError>
    ensures { OnOk result (Adds (title_of words heap.now) (string_bytes text.old) (string_bytes text.new)) }
{
    let rows = rows_of(alloc, Grid::of(words, &heap.blocks), heap)?;
    write!(
        text,
        "<g transform='translate(1024 {y})'><text class='name' y='320'>"
    )?;
    write_title(text, words, heap)?;
    text.push_str(&rows)?;
    Ok(())
}

// The height of a heap with this many words.
fn height(words: u32, heap: &MappedHeap) -> u64
    ensures { result ≤ 2 ^ 46 }
{
    Grid::of(words, &heap.blocks).height(words, &heap.blocks)
}

// The height at which the last of some heaps ends.
fn end_of(words: u32, heaps: &[MappedHeap]) -> u64
    requires { length heaps.now ≤ 8 }
{
    let mut y = TOP;
    for number in 0..heaps.len() {
        y += height(words, &heaps[number]);
    }
    y
}

#[tactic(auto, using(crate::proofs::Telling::adds_none, crate::proofs::Telling::adds_next, crate::proofs::Telling::adds_all))]
fn write_heaps(
    alloc: Global,
    text: &mut String,
    words: u32,
    heaps: &[MappedHeap],
) -> Result<(), AllocError>
    requires { length heaps.now ≤ 8 }
    ensures { OnOk result (Adds (all_told (title_of words) heaps.now) (string_bytes text.old) (string_bytes text.new)) }
{
    let mut y = TOP;
    for number in 0..heaps.len() {
        let heap = &heaps[number];
        write_heap(alloc, text, y, words, heap)?;
        y += height(words, heap);
    }
    Ok(())
}

// Adds what stands above the first heap.
fn write_head(text: &mut String, height: u64) -> Result<(), AllocError>
    ensures { OnOk result (Adds (COLOURS.now ∷ []) (string_bytes text.old) (string_bytes text.new)) }
{
    let pixels = height / 16;
    write!(
        text,
        "<svg xmlns='http://www.w3.org/2000/svg' width='1104' height='{pixels}' viewBox='0 0 17664 {height}'>\n"
    )?;
    text.push_str(STYLE)?;
    text.push_str(COLOURS)?;
    Ok(())
}

/// Adds the picture of heaps with `words` words each, at most eight.
///
/// ```text
/// let mut text = String::new(alloc);
/// write_svg(alloc, &mut text, 64, &heaps)?;   // "<svg xmlns='http://www.w3.org/2000/svg' width='1104' .."
/// ```
///
/// # Errors
///
/// Where memory runs out.
pub fn write_svg(
    alloc: Global,
    text: &mut String,
    words: u32,
    heaps: &[MappedHeap],
) -> Result<(), AllocError>
    requires { length heaps.now ≤ 8 }
    ensures { OnOk result (Adds (svg_told words heaps.now) (string_bytes text.old) (string_bytes text.new)) }
{
    write_head(text, end_of(words, heaps))?;
    write_heaps(alloc, text, words, heaps)?;
    text.push_str("</svg>\n")?;
    Ok(())
}
