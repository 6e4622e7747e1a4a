ghost use Rattle.std.specs.Prelude.{◌≡◌};

use thiserror::Error;
use tlsf_heap::{Name, Refusal};

/// Why a worker refuses a call. All is then as before.
#[derive(Clone, Copy, Debug, PartialEq, Eq, Error)]
pub enum CrewRefusal {
    /// The own heap refuses it.
    #[error("the heap refuses: {0}")]
    Heap(Refusal),
    /// The lane to the owner of this name is full. The name is given back.
    #[error("the lane is full")]
    Full(Name),
    /// There is no such worker, or it is the caller itself.
    #[error("no such other worker")]
    Stranger,
    /// The event that was to make the name made none.
    #[error("no name was made")]
    Unmade,
}

impl CrewRefusal {
    ghost use Rattle.tlsf_calls.specs.Numbers.{number_of};

    /// The number that stands for the refusal in reply lines.
    pub fn number(self) -> u32
        ensures { result ≡ number_of self }
    {
        match self {
            CrewRefusal::Heap(refusal) => refusal.number(),
            CrewRefusal::Full(_) => 8,
            CrewRefusal::Stranger => 9,
            CrewRefusal::Unmade => 18,
        }
    }
}
