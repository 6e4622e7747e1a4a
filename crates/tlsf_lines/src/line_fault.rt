ghost use Rattle.std.specs.Prelude.{◌≡◌};

/// A fault of a line of a trace.
#[derive(Clone, Copy)]
pub enum LineFault {
    /// The first line is no header.
    BadHeader,
    /// The first field is no keyword, a field is missing, left over or out of shape, or the line
    /// feed is missing.
    BadLine,
    /// A number has a leading zero or is out of its range.
    BadNumber,
    /// A label is made twice, used before it is made, or used by another worker in the phase of
    /// its making.
    LabelOrder,
}

impl LineFault {
    ghost use Rattle.tlsf_lines.specs.LineFaults.{number_of_fault};

    /// The fault's number, from 11 to 14.
    pub fn number(self) -> u32
        ensures { result ≡ number_of_fault self }
    {
        match self {
            LineFault::BadHeader => 11,
            LineFault::BadLine => 12,
            LineFault::BadNumber => 13,
            LineFault::LabelOrder => 14,
        }
    }
}
