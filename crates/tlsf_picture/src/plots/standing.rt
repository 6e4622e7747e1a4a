ghost use Rattle.std.specs.Prelude.{◌≡◌};
ghost use Rattle.tlsf_picture.specs.plots.Standings as told;
ghost use Rattle.tlsf_picture.specs.plots.Told.{words_told};

use crate::plots::point::Point;

/// How a heap stands at a point, by what tells where to look. Words are of 64 bits.
#[derive(Clone, Copy)]
pub enum Standing {
    /// The longest request of its worker finds no room.
    NoRoom {
        /// The words of the free blocks.
        free: u32,
    },
    /// It finds room.
    Room {
        /// The words of the live blocks.
        live: u32,
        /// The thousandths of the free words that lie outside the greatest free block.
        fragmentation: u32,
    },
}

// Whether a heap with this many words live and this fragmentation is fuller than another.
fn is_fuller(live: u32, fragmentation: u32, other: u32, less: u32) -> bool
    ensures { result ≡ told.is_fuller live fragmentation other less }
{
    other < live || (live == other && less < fragmentation)
}

impl Standing {
    /// The words that are told of it: those that are free without room, and else those that are live.
    pub(crate) fn words(self) -> u32
        ensures { result ≡ words_told self }
    {
        match self {
            Standing::NoRoom { free } => free,
            Standing::Room { live, .. } => live,
        }
    }

    /// At a point, where the longest request is of this many bytes.
    pub(crate) fn of(len: u32, point: &Point) -> Standing
        ensures { result ≡ told.standing_of len point.now }
    {
        if point.lacks(len) {
            Standing::NoRoom { free: point.free }
        } else {
            Standing::Room {
                live: point.live,
                fragmentation: point.fragmentation,
            }
        }
    }

    /// Whether it is worse than another. Without room is worse than with it. Without room, more free words are worse; with room,
    /// more live words and, of equally many, more fragmentation.
    pub(crate) fn is_worse(self, than: Standing) -> bool
        ensures { result ≡ told.is_worse self than }
    {
        match self {
            Standing::NoRoom { free } => match than {
                Standing::NoRoom { free: other } => other < free,
                Standing::Room { .. } => true,
            },
            Standing::Room {
                live,
                fragmentation,
            } => match than {
                Standing::NoRoom { .. } => false,
                Standing::Room {
                    live: other,
                    fragmentation: less,
                } => is_fuller(live, fragmentation, other, less),
            },
        }
    }
}
