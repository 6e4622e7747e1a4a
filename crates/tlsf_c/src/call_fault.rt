//! Why a call of C's is refused.
ghost use Rattle.std.specs.Prelude.{◌≡◌};
ghost use Rattle.tlsf_c.specs.Checked.{check_number_of, next_told, damaged_told};
ghost use Rattle.tlsf_c.specs.Refusals.{status_of};

use tlsf_heap::{Checked, Refusal};

/// Why a call is refused, beside what a heap refuses. The handles are then as before.
#[derive(Clone, Copy)]
pub enum CallFault {
    // These three first: their numbers, 32, 36 and 40, rise by steps. So `refusal`, which tells the first or the last, takes no table.
    /// The handle isn't open.
    Closed,
    /// A block is damaged: other code has written past the end of a payload.
    Damaged,
    /// The handle is open with another kind of end, or of arena.
    OtherKind,
    /// A number doesn't fit: a region's words, a lane's capacity.
    BadSize,
    /// The memory was not granted.
    NoMemory,
    /// The handle is open already.
    InUse,
    /// No heap has that level.
    BadLevel,
    /// The lane is full, as far as its end knows.
    Full,
    /// The lane has nothing to take, as far as its end knows.
    Empty,
    /// Another thread was half through a step on the queue.
    Busy,
    /// As many blocks of a row of pools are held as may be.
    RowFull,
}

impl CallFault {
    ghost use Rattle.tlsf_c.specs.Refusals.{call_number_of};

    /// The number that stands for the fault. It is that of a trace where it means the same, as 5, 6 and 8; otherwise it is one from
    /// 32 on.
    pub fn number(self) -> u32
        ensures { result ≡ call_number_of self }
    {
        match self {
            CallFault::BadSize => 5,
            CallFault::NoMemory => 6,
            CallFault::Closed => 32,
            CallFault::InUse => 33,
            CallFault::BadLevel => 34,
            CallFault::Full => 8,
            CallFault::Empty => 35,
            CallFault::Damaged => 36,
            CallFault::Busy => 37,
            CallFault::RowFull => 38,
            CallFault::OtherKind => 40,
        }
    }

    /// The same number, of a call that is refused before it begins. Never inline: on the way of one that serves no instruction is for it.
    #[cold]
    #[inline(never)]
    pub fn refusal(self) -> u32
        ensures { result ≡ call_number_of self }
    {
        self.number()
    }
}

/// 0, or the number of a heap's refusal.
pub fn status(answer: Result<(), Refusal>) -> u32
    ensures { result ≡ status_of answer }
{
    match answer {
        Ok(()) => 0,
        Err(why) => why.number(),
    }
}

/// The number of what a look at blocks found. Where all are sound, the place behind them goes to `next`; else that of the first which isn't goes
/// to `damaged`.
pub fn check_status(found: Option<Checked>, next: &mut u32, damaged: &mut u32) -> u32
    ensures number { result ≡ check_number_of found }
    ensures next { next.new ≡ next_told next.old found }
    ensures damaged { damaged.new ≡ damaged_told damaged.old found }
{
    match found {
        None => Refusal::Stale.number(),
        Some(Checked::Sound { next: end }) => {
            *next = end;
            0
        }
        Some(Checked::Damaged { at }) => {
            *damaged = at;
            CallFault::Damaged.number()
        }
    }
}
