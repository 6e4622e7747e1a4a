ghost use Rattle.std.specs.Prelude.{◌≡◌};

use thiserror::Error;

/// Why a heap was not opened.
#[derive(Clone, Copy, Debug, PartialEq, Eq, Error)]
pub enum OpenFault {
    /// The region has fewer than 4 words, or more than 2^20 at level 4 and 2^24 at level 5.
    #[error("a region has 4 to 1048576 words, and up to 16777216 at level 5")]
    BadSize,
    /// The first tick is the last one that there is.
    #[error("the first tick is the last one")]
    Worn,
    /// The memory for the heap was not granted.
    #[error("out of memory")]
    NoMemory,
}

impl OpenFault {
    ghost use Rattle.tlsf_heap.specs.Numbers.{fault_number_of};

    /// The number that stands for the fault.
    pub fn number(self) -> u32
        ensures { result ≡ fault_number_of self }
    {
        match self {
            OpenFault::BadSize => 5,
            OpenFault::Worn => 2,
            OpenFault::NoMemory => 6,
        }
    }
}
