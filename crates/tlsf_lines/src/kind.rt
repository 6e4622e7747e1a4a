ghost use Rattle.std.specs.Prelude.{◌≡◌};
ghost use Rattle.tlsf_lines.specs.Fields as spelled;
ghost use Rattle.tlsf_lines.specs.Lines.{kinds_of};

use crate::keyword::Keyword;
use crate::version::Version;

/// The meaning of a field after the first, in a line or in the header.
#[derive(Clone, Copy)]
pub enum Kind {
    /// The number of a worker, from 0 to one less than the header's number of workers.
    Worker,
    /// The number of a label, from 0 to 65535.
    Label,
    /// The length of a block in bytes, from 0 to 4294967295.
    Length,
    /// The byte of a payload where a line begins to write or read, from 0 to 4294967295.
    Offset,
    /// Payload bytes, two digits each, 1 to 64 of them.
    Payload,
    /// How many bytes a line reads, from 1 to 64.
    Count,
    /// How many posts a line drains at most, from 1 to 8192.
    Most,
    /// In the header, how many workers there are, from 1 to 8.
    Workers,
    /// In the header, the words of a heap, from 4 on; its version has the most.
    Words(Version),
    /// In the header, how many posts a lane holds, from 1 to 1024.
    Capacity,
}

impl Kind {
    /// The least and the greatest number of this kind, where there are this many workers. Payload bytes are no number.
    ///
    /// ```
    /// let (least, most) = Kind::Worker.range(2);      // 0 and 1
    /// ```
    pub fn range(self, workers: u32) -> (u32, u32)
        ensures { result ≡ spelled.range_of workers self }
    {
        match self {
            Kind::Worker => (0, workers.saturating_sub(1)),
            Kind::Label => (0, 65_535),
            Kind::Length | Kind::Offset => (0, u32::MAX),
            Kind::Payload => (0, 0),
            Kind::Count => (1, 64),
            Kind::Most => (1, 8192),
            Kind::Workers => (1, 8),
            Kind::Words(version) => (4, version.most_words()),
            Kind::Capacity => (1, 1024),
        }
    }

    /// Whether the field is a number, and not payload bytes.
    ///
    /// ```
    /// let is_number = Kind::Payload.is_number();      // false
    /// ```
    pub fn is_number(self) -> bool
        ensures { result ≡ spelled.is_number self }
    {
        !matches!(self, Kind::Payload)
    }
}

/// The kinds of the fields after a keyword.
///
/// ```
/// let kinds = kinds_behind(Keyword::Drain);           // Kind::Worker, Kind::Most
/// ```
pub fn kinds_behind(keyword: Keyword) -> &'static [Kind]
    ensures { result.now ≡ kinds_of keyword }
{
    match keyword {
        Keyword::Allocate | Keyword::Resize => &[Kind::Worker, Kind::Label, Kind::Length],
        Keyword::Release => &[Kind::Worker, Kind::Label],
        Keyword::Write => &[Kind::Worker, Kind::Label, Kind::Offset, Kind::Payload],
        Keyword::Read => &[Kind::Worker, Kind::Label, Kind::Offset, Kind::Count],
        Keyword::Drain => &[Kind::Worker, Kind::Most],
        Keyword::Phase => &[],
    }
}
