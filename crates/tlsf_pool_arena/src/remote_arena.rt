ghost use Rattle.std.specs.Prelude.{◌≡◌, ◌↔◌, ℕ, ◌+◌, ◌*◌, ◌<◌, ◌≤◌, Bool, List, [], ◌∷◌, ◌++◌, true, false, Some, None, IfOk, IsOk, IsErrOf, OnOk, OnErr, Ok, replicate, slice_get, slice_set};
ghost use Rattle.std.specs.List.{range_with_len};
ghost use Rattle.tlsf_heap.specs.Calls.{last_tick, opened, released};
ghost use Rattle.tlsf_arena.specs.Arenas.{Holds};
ghost use Rattle.tlsf_arena.specs.Units.{IsArenaOf, piece_size};
ghost use Rattle.tlsf_pool_arena.specs.PoolArenas.{SamePoolArena, fixed_bytes, fixed_size, pool_requested, units_of_pool};
ghost use Rattle.tlsf_pool_arena.specs.Remotes.{GoesOn, IsAwayBy, NoneLost, TakesHome, idle_slots};
ghost use Rattle.tlsf_pool_arena.specs.declared.parcel.Parcel as parcel;
ghost use Rattle.tlsf_pool_arena.specs.returns.Ends.{away_by, id_of, looks_of, owner_id, slot_by};

use crate::parcel::Parcel;
use crate::pool_arena::PoolArena;
use crate::remote_block::RemoteBlock;
use crate::returns::owner_end::OwnerEnd;
use crate::returns::slots::Slots;
use crate::slot_list::SlotList;
use std::alloc::Global;
use std::marker::Model;
use tlsf_heap::OpenFault;
use tlsf_pool::PoolRefusal;

/// A pool's arena that lends its blocks by slots: it never refuses for want of room, and any thread may give a block back.
///
/// Contracts see it as its arena, the block that is away by each slot, and the looks that it had at slots. Each look tells
/// whether the block was home then. They also see the slots by which none is away, and the memory of that list (`extent`). They see
/// how often an entry of it was read or written.
#[derive(Drop)]
pub struct RemoteArena<const SLI: u32, const UNIT: usize> {
    arena: PoolArena<SLI, UNIT>,
    owner: OwnerEnd<Parcel<UNIT>>,
    // As many entries from the first on as blocks may be lent besides: the slots by which none is away.
    idle: SlotList,
    count: u32,
}

impl<const SLI: u32, const UNIT: usize> Model for RemoteArena<SLI, UNIT> {
    ghost use Rattle.std.specs.Prelude.{◌≡◌, ◌-◌, ◌≤◌, length, take};
    ghost use Rattle.tlsf_pool_arena.specs.returns.Ends.{owner_id, away_by, looks_of};
    ghost use Rattle.tlsf_pool_arena.specs.Remotes.{AreAway, AreIdle, RemoteState};

    ghost Value = { RemoteState UNIT };

    ghost view = { λ r. record { arena = r.arena; away = away_by r.owner; looks = looks_of r.owner; idle = take (r.count - r.arena.held) r.idle.slots; extent = r.idle.extent; steps = r.idle.steps; slots = owner_id r.owner } };

    ghost invariant = { λ r. AreAway UNIT r.arena.region r.arena.book (away_by r.owner) × (r.count ≡ length (away_by r.owner)) × (r.count ≡ r.arena.most) × AreIdle UNIT r.count (r.count - r.arena.held) r.idle.slots (away_by r.owner) × (r.arena.held ≤ r.count) };
}

impl<const SLI: u32, const UNIT: usize> RemoteArena<SLI, UNIT> {
    /// Opens an arena for at most `most` blocks at once, of at most `longest` bytes each, as [`PoolArena::open`] does, and is
    /// refused as it is. It lends them by the slots of `owner`, one for each block.
    pub fn open(
        alloc: Global,
        owner: OwnerEnd<Parcel<UNIT>>,
        id: u32,
        most: u32,
        longest: u32,
    ) -> Result<RemoteArena<SLI, UNIT>, OpenFault>
        requires kind { IsArenaOf SLI UNIT }
        requires fresh { away_by owner ≡ replicate most None }
        ensures heap { IfOk result (λ r. (units : ℕ) → units_of_pool SLI UNIT most longest ≡ Some units → (r.arena.heap ≡ opened id units 0) × (r.arena.region.end ≡ r.arena.region.start + UNIT * units)) }
        ensures bounds { IfOk result (λ r. (r.arena.most ≡ most) × (r.arena.longest ≡ longest) × (r.arena.held ≡ 0)) }
        ensures idle { IfOk result (λ r. NoneLost r × (r.idle ≡ range_with_len 0 most)) }
        ensures slots { IfOk result (λ r. (r.slots ≡ owner_id owner.entry) × (r.away ≡ away_by owner.entry) × (r.looks ≡ looks_of owner.entry)) }
        ensures bad_size { IsErrOf result OpenFault.BadSize ↔ (units_of_pool SLI UNIT most longest ≡ None) }
        ensures not_worn { ¬ (IsErrOf result OpenFault.Worn) }
    {
        let arena = PoolArena::<SLI, UNIT>::open(alloc, id, most, longest)?;
        let Ok(idle) = SlotList::all(alloc, most) else {
            return Err(OpenFault::NoMemory);
        };
        Ok(RemoteArena {
            arena,
            owner,
            idle,
            count: most,
        })
    }

    /// Lends a block with room for the longest request, `len` bytes or more, by a slot by which none is away. It is the one that
    /// came home last, or one that was never used (`last`). It is found in one step on the list of these, whatever the number of
    /// slots (`steps`).
    ///
    /// It is lent whenever `len` is at most the longest request, and a slot is idle. One is while fewer blocks are held than may
    /// be. Only the tick must not be at its last value. Else it is refused as `TooLong`, `Full` or `Worn`, in this order, and
    /// nothing changes: never for want of room. Takes no memory.
    ///
    /// ```text
    /// let block = arena.lend(&slots, 512)?;                       // of an arena of one block of up to 512 bytes
    /// arena.lend(&slots, 512).err() == Some(PoolRefusal::Full)
    /// arena.lend(&slots, 513).err() == Some(PoolRefusal::TooLong)
    /// ```
    pub fn lend<'a>(
        &mut self,
        slots: &'a Slots<Parcel<UNIT>>,
        len: u32,
    ) -> Result<RemoteBlock<'a, UNIT>, PoolRefusal>
        requires own { self.old.slots ≡ id_of slots.now }
        ensures ok { IsOk result ↔ ((len ≤ self.old.arena.longest) × (self.old.arena.held < self.old.arena.most) × ¬ (self.old.arena.heap.tick ≡ last_tick)) }

        // The refusals, in their order, and that nothing changes then.
        ensures too_long { IsErrOf result PoolRefusal.TooLong ↔ (self.old.arena.longest < len) }
        ensures full { IsErrOf result PoolRefusal.Full ↔ ((len ≤ self.old.arena.longest) × (idle_slots self.old.away ≡ 0)) }
        ensures err { OnErr result (SamePoolArena self.old.arena self.new.arena × (self.new.away ≡ self.old.away) × (self.new.idle ≡ self.old.idle)) }

        // The block is the arena's, and is away by one of the slots by which none was.
        ensures answer { IfOk result (λ b. (pool_requested SLI UNIT self.old.arena).answer ≡ Ok b.parcel.block.name) }
        ensures heap { OnOk result (self.new.arena.heap ≡ (pool_requested SLI UNIT self.old.arena).heap) }
        ensures block { IfOk result (λ b. (b.parcel.block.piece.region ≡ self.old.arena.region) × (b.parcel.block.right.book ≡ self.old.arena.book) × (b.parcel.block.piece.size ≡ fixed_bytes SLI UNIT self.old.arena.longest)) }
        ensures given { IfOk result (λ b. piece_size UNIT len ≤ b.parcel.block.piece.size) }
        ensures holds { IfOk result (λ b. Holds self.new.arena.heap b.parcel.block.name (fixed_size SLI UNIT self.old.arena.longest)) }
        ensures away { IfOk result (λ b. IsAwayBy self.old.away self.new.away (slot_by b.ticket) b.parcel) }
        ensures slot { IfOk result (λ b. slot_by b.ticket < self.new.arena.most) }
        ensures last { IfOk result (λ b. self.old.idle ≡ self.new.idle ++ slot_by b.ticket ∷ []) }
        ensures held { IfOk result (λ _. self.new.arena.held ≡ self.old.arena.held + 1) }
        ensures idle { NoneLost self.new }
        ensures looks { self.new.looks ≡ self.old.looks }
        ensures goes_on { GoesOn 64 1 self.old self.new }
    {
        let block = self.arena.allocate(len)?;
        let last = (self.count - self.arena.held()) as usize;
        let at = self.idle.read(last);
        let parcel = Parcel { block };
        let (parcel, ticket) = self.owner.send_out(slots, at as usize, parcel);
        Ok(RemoteBlock {
            parcel,
            ticket,
            slots,
        })
    }

    /// Releases the block that is away by a slot, where it came home, and answers whether it did. Its units are free from then on: the
    /// release is never refused. At the last tick nothing is released. Takes no memory.
    ///
    /// ```text
    /// let at = block.slot();
    /// drop(block);
    /// arena.take_home(&slots, at) == true
    /// ```
    pub fn take_home(&mut self, slots: &Slots<Parcel<UNIT>>, at: u32) -> bool
        requires own { self.old.slots ≡ id_of slots.now }
        requires slot { at < self.old.arena.most }
        ensures home { result ≡ true → (b : parcel.Parcel UNIT) × (slice_get self.old.away at ≡ Some (Some b)) × (self.new.away ≡ slice_set self.old.away at None) × (self.new.arena.heap ≡ (released self.old.arena.heap b.block.name).heap) × (self.new.arena.held + 1 ≡ self.old.arena.held) × (self.new.idle ≡ self.old.idle ++ at ∷ []) }
        ensures none { result ≡ false → (self.new.away ≡ self.old.away) × (self.new.arena.heap ≡ self.old.arena.heap) × (self.new.arena.held ≡ self.old.arena.held) × (self.new.idle ≡ self.old.idle) }

        // Until the last tick it looks at the slot once, and takes the block exactly where it was home at that look.
        ensures looks { ¬ (self.old.arena.heap.tick ≡ last_tick) → self.new.looks ≡ self.old.looks ++ (at, result) ∷ [] }
        ensures worn { self.old.arena.heap.tick ≡ last_tick → (result ≡ false) × (self.new.looks ≡ self.old.looks) }
        ensures idle { NoneLost self.new }
        ensures goes_on { GoesOn 60 1 self.old self.new }
    {
        if self.arena.tick() == u64::MAX {
            return false;
        }
        let Some(parcel) = self.owner.take(slots, at as usize) else {
            return false;
        };
        let idle = (self.count - self.arena.held()) as usize;
        match self.arena.release(parcel.into_block()) {
            Ok(()) => {
                self.idle.write(idle, at);
                true
            }
            Err(_) => unreachable!(),
        }
    }

    /// Releases each block that is home when it is looked at, and answers how many were (`taken`). It looks at each slot once, in order, unless
    /// the last tick comes, and takes no memory.
    ///
    /// ```text
    /// arena.drain(&slots) == 1                // one block came home
    /// ```
    pub fn drain(&mut self, slots: &Slots<Parcel<UNIT>>) -> u32
        requires own { self.old.slots ≡ id_of slots.now }
        ensures held { self.new.arena.held + result ≡ self.old.arena.held }
        ensures taken { (seen : List Bool) × TakesHome self.old self.new seen }
        ensures idle { NoneLost self.new }

        // At most 60 touches for each slot, and one step on the list of idle slots.
        ensures goes_on { GoesOn (60 * self.old.arena.most) self.old.arena.most self.old self.new }
    {
        let before = self.arena.held();
        for at in 0..self.count {
            let _home = self.take_home(slots, at);
        }
        before - self.arena.held()
    }

    /// How many blocks are held: those that are away, and those that came home and weren't released yet.
    pub fn held(&self) -> u32
        ensures held { result ≡ self.now.arena.held }
        ensures few { result ≤ self.now.arena.most }

        // By each other slot, of as many as blocks may be held, none is away.
        ensures idle { NoneLost self.now }
    {
        self.arena.held()
    }
}
