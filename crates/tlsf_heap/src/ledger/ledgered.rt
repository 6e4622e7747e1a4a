ghost use Rattle.std.specs.Fn.{FnOnceTakesAt, FnOnceTakesAtMut};
ghost use Rattle.std.specs.Prelude.{◌≡◌, ℕ, List, ◌+◌, ◌-◌, ◌/◌, ◌≤◌, length, OnOk};
ghost use Rattle.tlsf_heap.specs.Calls.{allocated_words, opened};
ghost use Rattle.tlsf_heap.specs.Effects.{Releases, seen_by, Allocates, AsksLive, ChecksBlocks, Looks, Reads, Reports, Writes, AltersInPlace, InspectsInPlace};
ghost use Rattle.tlsf_heap.specs.Footprint.{LeavesLive};
ghost use Rattle.tlsf_heap.specs.Given.{payload_words_given};
ghost use Rattle.tlsf_heap.specs.Image.{Shows};
ghost use Rattle.tlsf_heap.specs.InPlace.{ArePayload, IsRefusedAsRead, payload_of};
ghost use Rattle.tlsf_heap.specs.Lawful.{IsRegion};
ghost use Rattle.tlsf_heap.specs.Laws.{IsLive};
ghost use Rattle.tlsf_heap.specs.Touched.{allocate_touches, release_touches, read_touches, write_touches};
ghost use Rattle.tlsf_heap.specs.ledger.Ledgers.{IsLedgered, KeepsLedger, NotesIt, NotesNothing, ChangesNoLedger};
ghost use Rattle.tlsf_heap.specs.Blocks.{want};

use crate::checked::Checked;
use crate::heap::Heap;
use crate::ledger::Ledger;
use crate::name::Name;
use crate::placed_block::PlacedBlock;
use crate::refusal::Refusal;
use crate::report::Report;
use std::marker::Model;

/// A heap with a ledger, which notes what is given and what comes back. Its level is that of its heap, 4 or 5.
///
/// Contracts see it as its heap, the words that are stored in its region (`stored`), the ledger, and the heap's memory (`extents`). They
/// also see its touches and the words that they touched. The ledger is always one of the heap (`IsLedgered`): what it
/// notes is true of the live blocks. A call that is refused changes neither. Places and sizes are in words of 8 bytes, lengths in
/// bytes.
#[derive(Drop)]
pub struct Ledgered<const SLI: u32, L: Ledger<SLI>> {
    pub(crate) heap: Heap<SLI>,
    pub(crate) ledger: L,
}

impl<const SLI: u32, L: Ledger<SLI>> Model for Ledgered<SLI, L> {
    ghost use Rattle.tlsf_heap.specs.ledger.Ledgers.{LedgerState, IsLedgered};

    ghost Value = { LedgerState L };

    ghost view = { λ c. record { heap = c.heap.heap; stored = c.heap.stored; ledger = c.ledger; extents = c.heap.extents; touches = c.heap.touches; touched = c.heap.touched } };

    ghost invariant = { λ c. IsLedgered (L.holds SLI) (record { heap = c.heap.heap; stored = c.heap.stored; ledger = c.ledger; extents = c.heap.extents; touches = c.heap.touches; touched = c.heap.touched }) };
}

impl<const SLI: u32, L: Ledger<SLI>> Ledgered<SLI, L> {
    /// Puts a heap and a ledger of it together.
    ///
    /// ```text
    /// let counted = Ledgered::new(heap, counts);       // of a new heap: no grant and no return
    /// ```
    pub fn new(heap: Heap<SLI>, ledger: L) -> Ledgered<SLI, L>
        requires { IsLedgered (L.holds SLI) (record { heap = heap.heap; stored = heap.stored; ledger = ledger; extents = heap.extents; touches = heap.touches; touched = heap.touched }) }
        ensures heap { result.heap ≡ heap.entry.heap }
        ensures stored { result.stored ≡ heap.entry.stored }
        ensures ledger { result.ledger ≡ ledger }
        ensures extents { result.extents ≡ heap.entry.extents }
        ensures touches { result.touches ≡ heap.entry.touches }
        ensures touched { result.touched ≡ heap.entry.touched }
    {
        Ledgered { heap, ledger }
    }

    /// Makes a heap that is new, and has four words, one of `words` words, for which `Heap::open_for` took the memory. From here on it has
    /// that ledger, and its touches are counted.
    ///
    /// ```text
    /// let mut counted = Ledgered::new(Heap::<4>::open_for(alloc, 0, 64, 0)?, counts);
    /// counted.begin(64, counts);
    /// ```
    pub fn begin(&mut self, words: u32, ledger: L)
    where
        L: Drop,
        requires new { self.old.heap ≡ opened self.old.heap.id 4 (self.old.heap.tick - 1) }
        requires words { IsRegion SLI words }
        requires words_room { words ≤ self.old.extents.words.capacity }
        requires starts_room { (words + 63) / 64 ≤ self.old.extents.starts.capacity }
        requires holds { L.holds SLI (opened self.old.heap.id words (self.old.heap.tick - 1)) ledger }
        ensures heap { self.new.heap ≡ opened self.old.heap.id words (self.old.heap.tick - 1) }
        ensures ledger { self.new.ledger ≡ ledger }
        ensures is { IsLedgered (L.holds SLI) self.new }
        ensures shows { Shows self.new.stored self.new.heap.blocks }
        ensures touches { self.new.touches ≤ 10 }
    {
        self.heap.begin(words);
        self.ledger = ledger;
    }

    /// The notes on the heap.
    ///
    /// ```text
    /// counted.ledger()                        // of one with `Counts`: how many allocates and releases were accepted
    /// ```
    pub fn ledger(&self) -> &L
        ensures ledger { result.now ≡ self.now.ledger }
        ensures ledgered { IsLedgered (L.holds SLI) self.now }
    {
        &self.ledger
    }

    /// The number of the heap, which the names of its blocks have.
    ///
    /// ```text
    /// counted.id()                            // 7, where it was opened with that number
    /// ```
    pub fn id(&self) -> u32
        ensures id { result ≡ self.now.heap.id }
        ensures ledgered { IsLedgered (L.holds SLI) self.now }
    {
        self.heap.id()
    }

    /// The address of the region's first word, as [`Heap::base`] answers it. Takes no memory.
    ///
    /// ```text
    /// let base = counted.base();              // the payload of a block at place 0 begins three words after it
    /// ```
    pub fn base(&mut self) -> *mut u64
        ensures address { result ≡ self.old.extents.words.address }
        ensures same { self.new ≡ self.old }
        ensures keeps { KeepsLedger (L.holds SLI) self.old self.new }
    {
        self.heap.base()
    }

    /// Gives a block that holds `len` bytes of payload, all zero, by good fit (ECRTS 2004, sections 3 and 4), and notes it.
    ///
    /// Refused by the ledger, if that admits no such request; then as `Heap::allocate_words` refuses. It is `NoFit` where no free
    /// block lies in a class at or above the search class of the words that the ledger names. Otherwise it is `Worn` where the tick
    /// is at its last value. Nothing is noted then. Takes no memory.
    ///
    /// ```
    /// let mut heap = Ledgered::<4, Counts>::open(alloc, 0, 4, 0)?; // a heap of 4 words, the least
    /// let name = heap.allocate(0)?; // 0 bytes of payload: a block of 4 words
    /// assert_eq!(heap.allocate(0), Err(Refusal::NoFit)); // nothing is free: counted as no grant
    /// ```
    pub fn allocate(&mut self, len: u32) -> Result<Name, L::Why>
        ensures answer { result ≡ L.answered self.old.ledger len (allocated_words SLI self.old.heap (L.takes SLI self.old.ledger len) len).answer }
        ensures allocates { L.admits self.old.ledger len → Allocates allocate_touches SLI (L.takes SLI self.old.ledger len) len (seen_by self.old) (seen_by self.new) (allocated_words SLI self.old.heap (L.takes SLI self.old.ledger len) len).answer }

        // This comes to: when each refusal comes, and when it is a name.
        ensures tells { L.tells SLI self.old.heap self.old.ledger len result }
        ensures given { OnOk result (L.given self.old.ledger len self.new.ledger) }
        ensures frame { NotesIt (L.holds SLI) L.same_limits self.old self.new result }
        ensures leaves { LeavesLive self.old.heap.blocks self.old.touched self.new.touched }

        // Admitted or not: at most this many touches, and one for each payload word of the block given. However many words the
        // ledger has it take, no more for these than the words wanted for the bytes.
        ensures touches { self.new.touches ≤ self.old.touches + allocate_touches + payload_words_given result self.new.heap }
        ensures few { self.new.touches ≤ self.old.touches + allocate_touches + want len }
    {
        L::laws();
        let place = match self.ledger.admit(len) {
            Ok(place) => place,
            Err(why) => return Err(why),
        };
        let words = self.ledger.words(len);
        let name = match self.heap.allocate_words(words, len) {
            Ok(name) => name,
            Err(why) => return Err(self.ledger.refused(len, why)),
        };
        self.ledger.give(len, place);
        Ok(name)
    }

    /// Takes back the block of that name, merges it with its free neighbours (at once: ECRTS 2004, section 4), and notes that.
    ///
    /// Refused as `Heap::release` refuses: `Foreign` where the name is of another heap. Otherwise `Stale` where no live block has
    /// that place and serial, and otherwise `Worn` where the tick is at its last value. Nothing is noted then. Takes no memory.
    ///
    /// ```
    /// heap.release(name)?;
    /// assert_eq!(heap.release(name), Err(Refusal::Stale)); // it is released already: counted as no return
    /// ```
    pub fn release(&mut self, name: Name) -> Result<(), Refusal>
        // Accepted or refused, and whatever the region holds.
        ensures releases { Releases (L.look_touches + release_touches) (seen_by self.old) (seen_by self.new) name result }

        // No more than 64 touches, whatever the ledger looks at.
        ensures touches { self.new.touches ≤ self.old.touches + 64 }
        ensures returned { OnOk result (L.returned self.old.ledger (length (payload_of self.old.heap name)) self.new.ledger) }
        ensures frame { NotesIt (L.holds SLI) L.same_limits self.old self.new result }
    {
        L::laws();
        let seen = match L::look(&mut self.heap, name) {
            Ok(seen) => seen,
            Err(why) => return Err(why),
        };
        if let Err(why) = self.heap.release(name) {
            return Err(why);
        }
        self.ledger.take_back(seen);
        Ok(())
    }

    /// Writes bytes into the payload of the block of that name, from byte `at` of it on.
    ///
    /// Refused as `Heap::write` refuses: `Foreign` where the name is of another heap. Otherwise `Stale` where no live block has
    /// that place and serial, and otherwise `Range` where the bytes would go past the end of the payload. No byte changes then.
    /// Takes no memory.
    ///
    /// ```
    /// let name = heap.allocate(4)?;
    /// heap.write(name, 1, &[5, 6])?; // bytes 1 and 2 of the payload
    /// assert_eq!(heap.write(name, 3, &[5, 6]), Err(Refusal::Range));
    /// ```
    pub fn write(&mut self, name: Name, at: u32, bytes: &[u8]) -> Result<(), Refusal>
        ensures writes { Writes (write_touches (length bytes.now)) (seen_by self.old) (seen_by self.new) name at bytes.now result }
        ensures frame { NotesNothing (L.holds SLI) self.old self.new result }
    {
        L::laws();
        self.heap.write(name, at, bytes)
    }

    /// Reads bytes of the payload of the block of that name, from byte `at` of it on, and fills `out` with them.
    ///
    /// Refused as `Heap::read` refuses: `Foreign` where the name is of another heap. Otherwise `Stale` where no live block has that
    /// place and serial, and otherwise `Range` where the bytes would go past the end of the payload. `out` is then as before. Takes
    /// no memory.
    ///
    /// ```
    /// let name = heap.allocate(4)?;
    /// let mut out = [9u8; 2];
    /// heap.read(name, 2, &mut out)?; // bytes 2 and 3 of the payload
    /// assert_eq!(out, [0, 0]);
    /// ```
    pub fn read(&mut self, name: Name, at: u32, out: &mut [u8]) -> Result<(), Refusal>
        ensures reads { Reads (read_touches (length out.old)) (seen_by self.old) (seen_by self.new) name at out.old out.new result }
        ensures frame { ChangesNoLedger (L.holds SLI) self.old self.new }
    {
        self.heap.read(name, at, out)
    }

    /// Hands the payload of the block of that name to `f`, which reads and writes it where it stands, and gives back what `f`
    /// answers. `f` gets the words that hold it, as [`Heap::alter`] hands them out. Behind a lock others wait for it. Its work is
    /// counted in no touch, and noted neither as a grant nor as a return.
    ///
    /// Refused as `Heap::alter` refuses: `Foreign` where the name is of another heap, otherwise `Stale` where no live block has
    /// that place and serial. Then `f` is not called. Takes no memory.
    ///
    /// ```
    /// let name = heap.allocate(8)?;
    /// heap.alter(name, |words| words[0] = 0x6948)?; // bytes 0 and 1 of the payload are 0x48 and 0x69
    /// ```
    pub fn alter<R, F: FnOnce(&mut [u64]) -> R>(&mut self, name: Name, f: F) -> Result<R, Refusal>
        requires { IsLive self.old.heap name → (words : List ℕ) → ArePayload self.old.heap name words → FnOnceTakesAtMut F.FnOnce f words }
        ensures answer { IsRefusedAsRead self.old.heap name result }
        ensures alters { AltersInPlace F.FnOnce f (seen_by self.old) (seen_by self.new) name result }
        ensures frame { NotesNothing (L.holds SLI) self.old self.new result }
    {
        L::laws();
        self.heap.alter(name, f)
    }

    /// Shows the payload of the block of that name to `f`, where it stands, and gives back what `f` answers. `f` gets the words that
    /// hold it, as [`Heap::inspect`] shows them. Behind a lock others wait for it; what it reads is counted in no touch.
    ///
    /// Refused as `Heap::inspect` refuses: `Foreign` where the name is of another heap, otherwise `Stale` where no live block has
    /// that place and serial. Then `f` is not called. Takes no memory.
    ///
    /// ```
    /// let first = heap.inspect(name, |words| words[0])?; // after the alter above
    /// assert_eq!(first, 0x6948);
    /// ```
    pub fn inspect<R, F: FnOnce(&[u64]) -> R>(&mut self, name: Name, f: F) -> Result<R, Refusal>
        requires { IsLive self.old.heap name → (words : List ℕ) → ArePayload self.old.heap name words → FnOnceTakesAt F.FnOnce f words }
        ensures answer { IsRefusedAsRead self.old.heap name result }
        ensures inspects { InspectsInPlace F.FnOnce f (seen_by self.old) (seen_by self.new) name result }
        ensures frame { ChangesNoLedger (L.holds SLI) self.old self.new }
    {
        self.heap.inspect(name, f)
    }

    /// The report on the heap, and how well it serves: blocks, words of 8 bytes, payload bytes. It goes over all blocks, is never
    /// refused, and takes no memory.
    ///
    /// ```
    /// let report = heap.report(); // of a new heap of 1024 words
    /// assert_eq!((report.live_blocks, report.free_words), (0, 1024));
    /// ```
    pub fn report(&mut self) -> Report
        ensures reports { Reports SLI (seen_by self.old) (seen_by self.new) result }

        // The answer by the ledger.
        ensures tells { L.reports self.old.ledger result }
        ensures frame { ChangesNoLedger (L.holds SLI) self.old self.new }
    {
        L::laws();
        self.heap.report()
    }

    /// The block that begins at a place, None where none does: a number from outside is not followed. The next begins at its end,
    /// `at + size`, so that a walk from place 0 meets all blocks. Takes no memory.
    ///
    /// ```
    /// let block = heap.block_at(0); // of a new heap of 1024 words
    /// assert_eq!(block.map(|block| block.size), Some(1024));
    /// ```
    pub fn block_at(&mut self, at: u32) -> Option<PlacedBlock>
        ensures looks { Looks (seen_by self.old) (seen_by self.new) at result }
        ensures frame { ChangesNoLedger (L.holds SLI) self.old self.new }
    {
        self.heap.block_at(at)
    }

    /// Looks at `most` blocks at most, one after the other, as [`Heap::check_blocks`] does. The first of them begins at `from`; `None`
    /// where none begins there. A heap that only these calls have changed is never called damaged. Takes no memory.
    ///
    /// ```
    /// let found = heap.check_blocks(0, 1); // of a new heap
    /// assert_eq!(found, Some(Checked::Sound { next: 0 }));
    /// ```
    pub fn check_blocks(&mut self, from: u32, most: u32) -> Option<Checked>
        ensures checks { ChecksBlocks self.old.stored from most (seen_by self.old) (seen_by self.new) result }
        ensures frame { ChangesNoLedger (L.holds SLI) self.old self.new }
        ensures stored { self.new.stored ≡ self.old.stored }
    {
        self.heap.check_blocks(from, most)
    }

    /// Whether a live block of the heap has that name. A forged name is not followed. Takes no memory.
    ///
    /// ```
    /// let name = heap.allocate(8)?;
    /// assert!(heap.is_live(name));
    /// ```
    pub fn is_live(&mut self, name: Name) -> bool
        ensures asks { AsksLive (seen_by self.old) (seen_by self.new) name result }
        ensures frame { ChangesNoLedger (L.holds SLI) self.old self.new }
    {
        self.heap.is_live(name)
    }

    /// The tick of the heap: that which the next accepted allocate or release stamps, 1 to 2^64 - 1. A block that is free since tick s
    /// has been free for `tick - s` ticks.
    ///
    /// ```text
    /// heap.tick()                            // of a heap opened at 0: 1, and 2 after an accepted allocate
    /// ```
    pub fn tick(&self) -> u64
        ensures tick { result ≡ self.now.heap.tick }
        ensures ledgered { IsLedgered (L.holds SLI) self.now }
    {
        self.heap.tick()
    }
}
