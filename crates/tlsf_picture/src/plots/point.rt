ghost use Rattle.std.specs.Prelude.{◌≡◌};
ghost use Rattle.tlsf_picture.specs.plots.Points as told;

use tlsf_heap::Report;

/// How a heap stands after a line of its trace, or at the worst after some lines. Words are of 64 bits.
#[derive(Clone, Copy)]
pub struct Point {
    /// The words of the live blocks.
    pub live: u32,
    /// The words of the free blocks.
    pub free: u32,
    /// The words of the greatest free block.
    pub largest: u32,
    /// The greatest length in bytes for which a request finds room.
    pub grant: u32,
    /// The thousandths of the free words that lie outside the greatest free block.
    pub fragmentation: u32,
    /// The words that the line asks of the heap, 0 where it asks for no block.
    pub asked: u32,
    /// Whether a call of the heap's worker was refused.
    pub refused: bool,
}

impl Point {
    /// A report, after a line that asks for this many words.
    pub(crate) fn of(report: Report, asked: u32, refused: bool) -> Point
        ensures { result ≡ told.point_of report asked refused }
    {
        Point {
            live: report.live_words,
            free: report.free_words,
            largest: report.largest,
            grant: report.grant,
            fragmentation: report.fragmentation,
            asked,
            refused,
        }
    }

    /// A heap of `words` words in which all is free.
    pub(crate) fn untouched(words: u32) -> Point
        ensures { result ≡ told.untouched words }
    {
        Point {
            live: 0,
            free: words,
            largest: words,
            grant: u32::MAX,
            fragmentation: 0,
            asked: 0,
            refused: false,
        }
    }

    /// The worse of two in each number.
    pub(crate) fn worse(self, other: Point) -> Point
        ensures { result ≡ told.worse self other }
    {
        Point {
            live: self.live.max(other.live),
            free: self.free.min(other.free),
            largest: self.largest.min(other.largest),
            grant: self.grant.min(other.grant),
            fragmentation: self.fragmentation.max(other.fragmentation),
            asked: self.asked.max(other.asked),
            refused: self.refused || other.refused,
        }
    }

    /// Whether a request of this many bytes finds no room here.
    pub(crate) fn lacks(&self, len: u32) -> bool
        ensures { result ≡ told.lacks len self.now }
    {
        self.free == 0 || self.grant < len
    }
}
