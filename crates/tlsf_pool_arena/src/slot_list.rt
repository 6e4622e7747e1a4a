ghost use Rattle.std.specs.Prelude.{◌≡◌, ◌<◌, length, Some, IfOk, slice_get, slice_set};
ghost use Rattle.std.specs.List.{range_with_len};
ghost use Rattle.tlsf_pool_arena.specs.Remotes.{StepsOnce};

use std::alloc::{AllocError, Global};
use std::marker::Model;
use tlsf_class::Touches;

/// Numbers of slots, and how often one was read or written. Each step on them goes through one read and one write, which count.
/// Neither takes memory (`steps`).
#[derive(Drop)]
pub(crate) struct SlotList {
    slots: Vec<u32, Global>,
    steps: Touches,
}

impl Model for SlotList {
    ghost use Rattle.tlsf_pool_arena.specs.Remotes.{CountedSlots};

    ghost Value = { CountedSlots };

    ghost view = { λ l. record { slots = l.slots.items; extent = record { address = l.slots.ptr; capacity = l.slots.cap }; steps = l.steps.count } };
}

impl SlotList {
    /// `count` slots, from 0 on.
    pub(crate) fn all(alloc: Global, count: u32) -> Result<SlotList, AllocError>
        ensures { IfOk result (λ l. l.slots ≡ range_with_len 0 count) }
    {
        let mut slots = Vec::with_capacity(alloc, count as usize)?;
        for at in 0..count {
            slots.push(at)?;
        }
        let steps = Touches::new();
        Ok(SlotList { slots, steps })
    }

    /// Reads an entry. Each read is here.
    pub(crate) fn read(&mut self, at: usize) -> u32
        requires { at < length self.old.slots }
        ensures slot { slice_get self.old.slots at ≡ Some result }
        ensures slots { self.new.slots ≡ self.old.slots }
        ensures steps { StepsOnce self.old self.new }
    {
        let slot = self.slots[at];
        self.steps.add_one();
        slot
    }

    /// Writes an entry. Each write is here.
    pub(crate) fn write(&mut self, at: usize, slot: u32)
        requires { at < length self.old.slots }
        ensures slots { self.new.slots ≡ slice_set self.old.slots at slot }
        ensures steps { StepsOnce self.old self.new }
    {
        self.slots[at] = slot;
        self.steps.add_one();
    }
}
