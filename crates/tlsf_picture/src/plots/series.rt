use crate::plots::point::Point;

/// A number of points that is drawn as a line.
#[derive(Clone, Copy)]
pub enum Series {
    /// The words of the live blocks.
    Live,
    /// The words that lines ask for.
    Asked,
    /// The words of the free blocks.
    Free,
    /// The words of the greatest free block.
    Largest,
    /// The thousandths of the free words outside that block.
    Fragmentation,
}

impl Series {
    /// The number of this series at a point.
    pub fn of(self, point: &Point) -> u32 {
        match self {
            Series::Live => point.live,
            Series::Asked => point.asked,
            Series::Free => point.free,
            Series::Largest => point.largest,
            Series::Fragmentation => point.fragmentation,
        }
    }

    /// The class of its line in the SVG file.
    pub fn class(self) -> &'static str {
        match self {
            Series::Live => "live",
            Series::Asked => "asked",
            Series::Free => "free",
            Series::Largest => "largest",
            Series::Fragmentation => "fragmentation",
        }
    }

    /// The first characters of its row.
    pub fn title(self) -> &'static str {
        match self {
            Series::Live => "live words    |",
            Series::Asked => "asked for     |",
            Series::Free => "free words    |",
            Series::Largest => "largest free  |",
            Series::Fragmentation => "fragmentation |",
        }
    }
}
