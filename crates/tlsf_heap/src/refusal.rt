ghost use Rattle.std.specs.Prelude.{◌≡◌, ◌≢◌};

use thiserror::Error;

/// Why a heap refuses a call. The heap is then as before.
#[derive(Clone, Copy, Debug, PartialEq, Eq, Error)]
pub enum Refusal {
    /// No free block lies in a class at or above the search class of the request.
    #[error("no free block fits")]
    NoFit,
    /// The tick is at its last value, so nothing can change any more.
    #[error("the tick is at its last value")]
    Worn,
    /// The name is of another heap.
    #[error("the name is of another heap")]
    Foreign,
    /// No live block has that place and that serial.
    #[error("no live block has that name")]
    Stale,
    /// The bytes that were named go past the end of the payload.
    #[error("the payload ends before")]
    Range,
    /// The block and a free one behind it have fewer words than the resize wants.
    #[error("there is no room behind the block")]
    NoRoom,
}

impl Refusal {
    ghost use Rattle.tlsf_heap.specs.Numbers.{number_of};
    ghost use Rattle.tlsf_heap.specs.declared.refusal.Refusal.TheVariants.{Foreign, Stale};

    /// Why the heap of number `id` refuses a name of heap `heap` that no live block of it has.
    // Apart: an accepted call, which looks at each of the name's parts, then makes no answer but its own.
    #[cold]
    #[inline(never)]
    pub(crate) fn of_name(heap: u32, id: u32) -> Refusal
        ensures foreign { heap ≢ id → result ≡ Foreign }
        ensures stale { heap ≡ id → result ≡ Stale }
    {
        if heap == id {
            Refusal::Stale
        } else {
            Refusal::Foreign
        }
    }

    /// The number that stands for the refusal in traces and reply lines.
    pub fn number(self) -> u32
        ensures { result ≡ number_of self }
    {
        match self {
            Refusal::NoFit => 1,
            Refusal::Worn => 2,
            Refusal::Foreign => 3,
            Refusal::Stale => 4,
            Refusal::Range => 7,
            Refusal::NoRoom => 10,
        }
    }
}
