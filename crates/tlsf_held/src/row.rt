ghost use Rattle.std.specs.Prelude.{◌≡◌, ◌+◌, ◌<◌, ◌^◌};

/// A row of a table of kinds: blocks whose lengths are of one size class, or of a few next to each other.
#[derive(Clone, Copy, Debug, PartialEq, Eq)]
pub struct Row {
    /// The most of its blocks that were held at once. One that was asked for counts, also where it was refused.
    pub most: usize,
    /// The longest of them, in bytes.
    pub longest: u32,
}

impl Row {
    ghost use Rattle.tlsf_held.specs.Rows.{joined, no_row, with_one};

    /// Of no block.
    pub fn new() -> Row
        ensures { result ≡ no_row }
    {
        Row {
            most: 0,
            longest: 0,
        }
    }

    /// With one block more, of `len` bytes.
    pub fn with_one(self, len: u32) -> Row
        requires { self.most + 1 < 2 ^ 64 }
        ensures { result ≡ with_one self len }
    {
        Row {
            most: self.most + 1,
            longest: self.longest.max(len),
        }
    }

    /// The least row that both are within.
    pub fn joined(self, other: Row) -> Row
        ensures { result ≡ joined self other }
    {
        Row {
            most: self.most.max(other.most),
            longest: self.longest.max(other.longest),
        }
    }
}
