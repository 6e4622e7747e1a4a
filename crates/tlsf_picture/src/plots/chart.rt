use crate::plots::look::Look;
use crate::plots::peak::Peak;
use crate::plots::point::Point;

/// The parts of the plot of a heap.
#[derive(Drop)]
pub struct Chart {
    /// The number of the heap.
    pub heap: u32,
    /// The words of the heap.
    pub words: u32,
    /// How many lines the axis has: those of the trace and one for the end.
    pub lines: u32,
    /// How many lines of the trace are drawn as one point.
    pub stride: usize,
    /// The bytes of the longest request of its worker.
    pub longest: u32,
    /// The line to look at.
    pub look: Look,
    /// The line after which most words are live.
    pub peak: Peak,
    /// The points that are drawn, each the worst of its lines.
    pub curve: Vec<Point>,
}
