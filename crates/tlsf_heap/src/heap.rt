ghost use Rattle.std.specs.Fn.{FnOnceTakesAt, FnOnceTakesAtMut};
ghost use Rattle.std.specs.Prelude.{◌≡◌, ◌≢◌, ℕ, List, ◌+◌, ◌*◌, ◌/◌, ◌-◌, ◌<◌, ◌≤◌, ◌^◌, ◌↔◌, true, length, min, take, IfOk, OnOk, OnErr, IsOk, IsErrOf, MatchResult, Ok, Err};
ghost use Rattle.tlsf_class.specs.Classes.{IsLevel, most_words};
ghost use Rattle.tlsf_heap.specs.Blocks;
ghost use Rattle.tlsf_heap.specs.ByPlace.{released_by_place, IsPlaceCheck};
ghost use Rattle.tlsf_heap.specs.Effects.{Allocates, Locates, Looks, Moves, Reads, Releases, Reports, Resizes, Writes, AltersInPlace, InspectsInPlace};
ghost use Rattle.tlsf_heap.specs.Footprint.{LeavesBoth, LeavesLive, LeavesPayloads};
ghost use Rattle.tlsf_heap.specs.FreePlaces.{ShowsLists};
ghost use Rattle.tlsf_heap.specs.Image.{Shows};
ghost use Rattle.tlsf_heap.specs.InPlace.{payload_of, words_grown, ArePayload, IsPayloadCheck, IsRefusedAsRead};
ghost use Rattle.tlsf_heap.specs.Lawful.{IsLawful, IsRegion};
ghost use Rattle.tlsf_heap.specs.Laws.{IsLive};
ghost use Rattle.tlsf_heap.specs.Moved.{copied, moved, payload_words_moved, resized_or_moved};
ghost use Rattle.tlsf_heap.specs.GoodFit.{block_at};
ghost use Rattle.tlsf_heap.specs.Named.{IsFirst, IsNameCheck};
ghost use Rattle.tlsf_heap.specs.Regions.{image_of};
ghost use Rattle.tlsf_heap.specs.Given.{payload_words_at};
ghost use Rattle.tlsf_heap.specs.Unset.{lying, with_payload};
ghost use Rattle.tlsf_heap.specs.Touched.{FollowsNoForgery, FollowsNoPlace, allocate_groups, allocate_touches, move_groups, move_touches, release_groups, release_touches, resize_groups, resize_touches, read_touches, write_touches};
ghost use Rattle.tlsf_heap.specs.Calls.{opened, released, resized, named, written, read_of, read_answer, has_bytes, last_tick};
ghost use Rattle.tlsf_heap.specs.Kept.{ChangesBytes, ChangesNothing, DoesPart, FindsOut, Settles, SparesOthers};
ghost use Rattle.tlsf_heap.specs.WordsInUse.{peak_moved, peak_of};
ghost use Rattle.tlsf_words.specs.Touched.{InGroups};
ghost use Rattle.tlsf_heap.specs.Shown.{seen};

mod aligned;
mod by_place;
mod check;
mod check_around;
mod check_request;
mod live;
mod refit;
mod reset;
mod tells;
mod unset;

use crate::fitting::coalesce;
use crate::name::Name;
use crate::open_fault::OpenFault;
use crate::placed_block::PlacedBlock;
use crate::refusal::Refusal;
use crate::region::Region;
use crate::report::Report;
use crate::tally::Tally;
use crate::usage::Usage;
use std::alloc::Global;
use std::marker::Model;
use tlsf_class::most_words;
use tlsf_words::{Tag, Words};

/// A heap over a region of words, kept by two-level segregated fit (ECRTS 2004, section 3).
///
/// Its level, 4 or 5, says how fine its size classes are: 16 or 32 for each power of two. A region of level 4 has 4 to 2^20 words, and
/// one of level 5 has 4 to 2^24. No heap has another level.
///
/// Contracts see it as its number, its words, its tick and its blocks in the order of their places. The tick begins one above the
/// first, rises by one with each accepted allocate, release or resize, and stamps what they change. Beside them they see the words
/// and start bits that are stored in its region, and the classes whose bits are set (`marked`). They see where its memory lies and
/// how large it is (`extents`), the most words that were ever in use (`most_in_use`), and its touches. These tell how often a stored
/// word, a start bit, the head of a list or a word of the bitmaps was read or written.
///
/// Places and sizes are in words of 8 bytes, lengths in bytes.
#[derive(Drop)]
pub struct Heap<const SLI: u32> {
    // Fields lie as they stand here. The fields that each call reads come first, in few cache lines. They are these two, where the
    // words and the map of starts lie, and the bitmaps. The heads of the lists are long, and last.
    id: u32,
    tick: u64,
    usage: Usage,
    region: Region<SLI>,
}

impl<const SLI: u32> Model for Heap<SLI> {
    ghost use Rattle.tlsf_heap.specs.Shown.{Shown};

    ghost Value = { Shown };

    ghost use Rattle.tlsf_heap.specs.Stored.{IsStored, state_of};

    ghost view = { λ h. record { heap = state_of SLI h; stored = h.region.stored; marked = h.region.marked; extents = h.region.extents; most_in_use = h.usage.most; touches = h.region.touches; touched = h.region.touched } };

    ghost invariant = { IsStored SLI };
}

/// The words wanted for a request of `len` bytes. Three are for the header and one for each eight bytes or part of them, and there
/// are no fewer than four. A block that is given for it has this many words, or up to three more.
///
/// ```
/// let words = want(100);          // 16
/// let least = want(0);            // 4
/// ```
pub fn want(len: u32) -> u32
    ensures { result ≡ Blocks.want len }
{
    // A byte for the payload of none, so that the words aren't compared with the least.
    ((u64::from(len) + 31 + u64::from(len == 0)) / 8) as u32
}

impl<const SLI: u32> Heap<SLI> {
    /// Opens a heap of number `id` over `words` words. It is one free block, stamped with the tick `first`.
    ///
    /// Refused as `BadSize` where `words` is below 4, or above 2^20 at level 4 and 2^24 at level 5. Otherwise as `Worn` where
    /// `first` is the last tick, 2^64 - 1. Otherwise as `NoMemory` where the memory was not granted. No later call takes memory.
    ///
    /// ```text
    /// let heap = Heap::<4>::open(alloc, 0, 64, 0)?;                  // heap 0: 512 bytes, at tick 1
    /// Heap::<4>::open(alloc, 0, 3, 0).err() == Some(OpenFault::BadSize)
    /// ```
    pub fn open(alloc: Global, id: u32, words: u32, first: u64) -> Result<Heap<SLI>, OpenFault>
        requires { IsLevel SLI }
        ensures heap { IfOk result (λ heap. heap.heap ≡ opened id words first) }
        ensures lawful { IfOk result (λ heap. IsLawful heap.heap) }
        ensures shows { IfOk result (λ heap. Shows heap.stored heap.heap.blocks) }
        ensures lists { IfOk result (λ heap. ShowsLists SLI heap.stored heap.marked heap.heap.blocks) }

        // The refusals, in their order. Memory is refused only where no other refusal comes.
        ensures bad_size { IsErrOf result OpenFault.BadSize ↔ ¬ (IsRegion SLI words) }
        ensures worn { IsRegion SLI words → (IsErrOf result OpenFault.Worn ↔ (first ≡ last_tick)) }

        ensures most { IfOk result (λ heap. heap.most_in_use ≡ 0) }

        // Three for the header of the free block and its start bit, and seven at most to list it. The first zeros aren't counted.
        ensures touches { IfOk result (λ heap. heap.touches ≤ 10) }
    {
        let mut heap = Heap::open_for(alloc, id, words, first)?;
        heap.begin(words);
        Ok(heap)
    }

    /// Opens a heap of number `id` over the first four words of memory for `words`. It is one free block, stamped with the tick
    /// `first`. [`Heap::begin`] makes it one of all these words. So a heap is made where it lies, and is not copied.
    ///
    /// Refused as [`Heap::open`].
    ///
    /// ```text
    /// let heap = Heap::<4>::open_for(alloc, 0, 64, 0)?;   // memory for 64 words, of which it has 4
    /// ```
    #[inline(always)]
    pub fn open_for(alloc: Global, id: u32, words: u32, first: u64) -> Result<Heap<SLI>, OpenFault>
        requires { IsLevel SLI }
        ensures heap { IfOk result (λ heap. heap.heap ≡ opened id 4 first) }
        ensures lawful { IfOk result (λ heap. IsLawful heap.heap) }
        ensures region { OnOk result (IsRegion SLI words) }
        ensures bad_size { IsErrOf result OpenFault.BadSize ↔ ¬ (IsRegion SLI words) }
        ensures worn { IsRegion SLI words → (IsErrOf result OpenFault.Worn ↔ (first ≡ last_tick)) }
        ensures most { IfOk result (λ heap. heap.most_in_use ≡ 0) }
        ensures words_room { IfOk result (λ heap. words ≤ heap.extents.words.capacity) }
        ensures starts_room { IfOk result (λ heap. (words + 63) / 64 ≤ heap.extents.starts.capacity) }
    {
        if words < 4 || words > most_words::<SLI>() {
            return Err(OpenFault::BadSize);
        }
        if first == u64::MAX {
            return Err(OpenFault::Worn);
        }
        let Ok(region) = Region::open_for(alloc, words, first) else {
            return Err(OpenFault::NoMemory);
        };
        Ok(Heap {
            id,
            tick: first + 1,
            usage: Usage::none(),
            region,
        })
    }

    /// Makes a heap that is new, and has four words, one of `words` words, for which [`Heap::open_for`] took the memory. The touches are
    /// counted from here on.
    ///
    /// ```text
    /// let mut heap = Heap::<4>::open_for(alloc, 0, 64, 0)?;
    /// heap.begin(64);                                     // as `Heap::open` gives it
    /// ```
    pub fn begin(&mut self, words: u32)
        requires new { self.old.heap ≡ opened self.old.heap.id 4 (self.old.heap.tick - 1) }
        requires words { IsRegion SLI words }
        requires words_room { words ≤ self.old.extents.words.capacity }
        requires starts_room { (words + 63) / 64 ≤ self.old.extents.starts.capacity }
        ensures heap { self.new.heap ≡ opened self.old.heap.id words (self.old.heap.tick - 1) }
        ensures lawful { IsLawful self.new.heap }
        ensures shows { Shows self.new.stored self.new.heap.blocks }
        ensures lists { ShowsLists SLI self.new.stored self.new.marked self.new.heap.blocks }
        ensures most { self.new.most_in_use ≡ self.old.most_in_use }
        ensures touches { self.new.touches ≤ 10 }
    {
        let stamp = self.tick - 1;
        self.region.lengthen(words, stamp);
    }

    /// Gives a block that holds `len` bytes of payload, all zero: good fit, of the last that became free (ECRTS 2004,
    /// sections 3 and 4). Three words of it are its header.
    ///
    /// Refused as `NoFit` where no free block lies in a class at or above the search class of the words wanted. Otherwise as `Worn`
    /// where the tick is at its last value. Takes no memory.
    ///
    /// ```text
    /// let mut heap = Heap::<4>::open(alloc, 0, 64, 0)?;
    /// let name = heap.allocate(100)?;         // 16 of the 64 words: Name { heap: 0, at: 0, serial: 1 }
    /// heap.allocate(400) == Err(Refusal::NoFit)
    /// ```
    pub fn allocate(&mut self, len: u32) -> Result<Name, Refusal>
        // Accepted or refused, and whatever the region holds.
        ensures allocates { Allocates allocate_touches SLI (Blocks.want len) len (seen self.old) (seen self.new) result }

        // A refusal changes nothing. All lies in this many groups of eight words, and one more for each 64 bytes, but start bits
        // and the lists.
        ensures frame { Settles SLI (allocate_groups + len / 64) (peak_of self.old self.new) self.old self.new result }
    {
        // Taken apart, so that each answer is written where it is made: handed on whole, it takes four instructions more.
        let name = match self.allocate_words(want(len), len) {
            Ok(name) => name,
            Err(why) => return Err(why),
        };
        Ok(name)
    }

    /// Gives a block of `words` words with `len` bytes of payload, all zero. It is an `allocate` where the caller says how many
    /// words the block has, its three of the header with them. It serves where each word stands for memory elsewhere. Only the
    /// payload is made zero, so it takes no longer for more words.
    ///
    /// `words` is at least `want(len)`, so at least 4. Refused as `NoFit` where no free block lies in a class at or above the
    /// search class of these words. So it is where they are more than a region may have. Otherwise as `Worn` where the tick is at
    /// its last value. Takes no memory.
    ///
    /// ```text
    /// let mut heap = Heap::<4>::open(alloc, 0, 64, 0)?;
    /// let name = heap.allocate_words(40, 0)?;         // 40 of the 64 words, and no payload
    /// heap.allocate_words(40, 0) == Err(Refusal::NoFit)
    /// ```
    // Always inline: in a call of its own, `allocate` would count the words that need no zeros, and it has none.
    #[inline(always)]
    pub fn allocate_words(&mut self, words: u32, len: u32) -> Result<Name, Refusal>
        requires { Blocks.want len ≤ words }
        // Accepted or refused, and whatever the region holds.
        ensures allocates { Allocates allocate_touches SLI words len (seen self.old) (seen self.new) result }

        // A refusal changes nothing.
        ensures frame { Settles SLI (allocate_groups + len / 64) (peak_of self.old self.new) self.old self.new result }

        // The block given has the words wanted.
        ensures room { IfOk result (λ name. words ≤ 3 + payload_words_at (named name self.new.heap.blocks)) }
    {
        let name = match self.allocate_unset_words(words, len) {
            Ok(name) => name,
            Err(why) => return Err(why),
        };
        self.zero_payload(name, len);
        Ok(name)
    }

    /// Takes back the block of that name, merges it with its free neighbours (ECRTS 2004, section 4), and stamps it with the tick.
    ///
    /// Refused as `Foreign` where the name is of another heap. Otherwise as `Stale` where no live block has that place and serial.
    /// Otherwise as `Worn` where the tick is at its last value. Takes no memory.
    ///
    /// ```text
    /// let name = heap.allocate(8)?;
    /// heap.release(name) == Ok(())
    /// heap.release(name) == Err(Refusal::Stale)
    /// ```
    #[inline(always)]
    pub fn release(&mut self, name: Name) -> Result<(), Refusal>
        // Accepted or refused, and whatever the region holds.
        ensures releases { Releases release_touches (seen self.old) (seen self.new) name result }

        // A refusal changes nothing. All lies in this many groups of eight words, but start bits and the lists.
        ensures frame { Settles SLI release_groups self.old.most_in_use self.old self.new result }
    {
        let own = self.check(name)?;
        self.check_tick()?;
        self.give_back(name.at, own);
        Ok(())
    }

    /// Makes the payload of the block of that name `len` bytes long, where the block stands. Its place and serial stay, so the name
    /// stays live. The bytes up to the smaller length stay, and new ones are zero.
    ///
    /// A block that has the words wanted, and fewer than four more, keeps its size. Every other one takes in the free block after
    /// it. Where four words or more are left of both, they are a free block, stamped with the tick. No block moves: where there is
    /// no room, the caller may allocate, copy and release.
    ///
    /// Refused as `Foreign` where the name is of another heap. Otherwise as `Stale` where no live block has that place and serial.
    /// Otherwise as `NoRoom` where the block and a free one behind it have fewer words than wanted. Otherwise as `Worn` where the
    /// tick is at its last value. Takes no memory.
    ///
    /// ```text
    /// let name = heap.allocate(8)?;            // of a new heap of 64 words: 4 of them
    /// heap.resize(name, 100) == Ok(())         // 16 words at place 0, and 48 free behind them
    /// heap.resize(name, 1000) == Err(Refusal::NoRoom)
    /// ```
    pub fn resize(&mut self, name: Name, len: u32) -> Result<(), Refusal>
        // Accepted or refused, and whatever the region holds.
        ensures resizes { Resizes resize_touches (Blocks.want len) len (seen self.old) (seen self.new) name result }

        // A refusal changes nothing. All lies in this many groups of eight words, and one more for each 64 bytes that are new,
        // but start bits and the lists.
        ensures frame { Settles SLI (resize_groups + (len - length (payload_of self.old.heap name)) / 64) (peak_of self.old self.new) self.old self.new result }
        ensures refused_groups { OnErr result (InGroups 3 self.old.touched self.new.touched) }
    {
        self.resize_words(name, want(len), len)
    }

    /// Makes the block of that name one of `words` words with `len` bytes of payload, where it stands. It is a `resize` where the
    /// caller says how many words the block has, its three of the header with them. Only new bytes of the payload are made zero: so
    /// it takes no longer for more words.
    ///
    /// `words` is at least `want(len)`, so at least 4. Refused as `resize`, where these are the words wanted. Takes no memory.
    ///
    /// ```text
    /// let name = heap.allocate_words(40, 0)?;          // of a new heap of 64 words
    /// heap.resize_words(name, 60, 0) == Ok(())         // 60 words at place 0, and 4 free behind them
    /// heap.resize_words(name, 65, 0) == Err(Refusal::NoRoom)
    /// ```
    #[inline(always)]
    pub fn resize_words(&mut self, name: Name, words: u32, len: u32) -> Result<(), Refusal>
        requires { Blocks.want len ≤ words }
        // Accepted or refused, and whatever the region holds.
        ensures resizes { Resizes resize_touches words len (seen self.old) (seen self.new) name result }

        // A refusal changes nothing. All lies in this many groups of eight words, and one more for each 64 bytes that are new,
        // but start bits and the lists.
        ensures frame { Settles SLI (resize_groups + (len - length (payload_of self.old.heap name)) / 64) (peak_of self.old self.new) self.old self.new result }
        ensures refused_groups { OnErr result (InGroups 3 self.old.touched self.new.touched) }
    {
        let own = self.check(name)?;
        self.refit(name, own, words, len, true)
    }

    /// Makes the payload of the block of that name `len` bytes long where the block stands, as `resize`. Where there is no room it
    /// does so in another block. This one gets the payload's bytes and zeros after them, and the old one is released. The answer is
    /// the name that the payload has from then on; where it isn't the old one, the old one is stale.
    ///
    /// Refused as `Foreign` where the name is of another heap; otherwise as `Stale` where no live block has that place and serial.
    /// Where there is room at its place it is refused as `Worn` where the tick is at its last value. Where there is none, as `Worn`
    /// where fewer than two ticks are left, since a move takes two. Otherwise as `NoFit` where `allocate` finds no block. Never as
    /// `NoRoom`. A refusal changes nothing. Takes no memory.
    ///
    /// ```text
    /// let name = heap.allocate(8)?;            // of a new heap of 64 words: 4 of them
    /// let wall = heap.allocate(8)?;            // right behind it
    /// let moved = heap.resize_or_move(name, 100)?;          // at place 8
    /// heap.release(name) == Err(Refusal::Stale)
    /// ```
    pub fn resize_or_move(&mut self, name: Name, len: u32) -> Result<Name, Refusal>
        // Accepted or refused, and whatever the region holds. Where the block stays, these are the touches of `resize`.
        ensures moves { Moves resize_touches move_touches SLI len (seen self.old) (seen self.new) name result }

        // A refusal changes nothing. All lies in this many groups of eight words, and three more for each 64 bytes, but start
        // bits and the lists.
        ensures frame { Settles SLI (move_groups + 3 * (len / 64)) (peak_moved self.old name.at result self.new.heap) self.old self.new result }
    {
        let own = self.check(name)?;
        self.refit_or_move(name, own, len)
    }

    /// Writes bytes into the payload of the block of that name, from byte `at` of it on.
    ///
    /// Refused as `Foreign` where the name is of another heap. Otherwise as `Stale` where no live block has that place and serial.
    /// Otherwise as `Range` where the bytes would go past the end of the payload. Takes no memory.
    ///
    /// ```text
    /// let name = heap.allocate(8)?;
    /// heap.write(name, 6, &[0x48, 0x69]) == Ok(())
    /// heap.write(name, 7, &[0x48, 0x69]) == Err(Refusal::Range)
    /// ```
    // Always inline, as `read` is: behind a call each saves registers that a short payload needs none of.
    #[inline(always)]
    pub fn write(&mut self, name: Name, at: u32, bytes: &[u8]) -> Result<(), Refusal>
        ensures writes { Writes (write_touches (length bytes.now)) (seen self.old) (seen self.new) name at bytes.now result }

        // A refusal changes nothing.
        ensures frame { ChangesBytes SLI self.old self.new result }
    {
        self.check_range(name, at, bytes.len())?;
        self.region.write(name.at, at, bytes);
        Ok(())
    }

    /// Reads bytes of the payload of the block of that name, from byte `at` of it on, and fills `out` with them.
    ///
    /// Refused as `Foreign` where the name is of another heap. Otherwise as `Stale` where no live block has that place and serial.
    /// Otherwise as `Range` where the bytes would go past the end of the payload. `out` is then as before. Takes no memory.
    ///
    /// ```text
    /// let mut out = [0; 2];
    /// heap.read(name, 6, &mut out)?;          // after the write above: out == [0x48, 0x69]
    /// ```
    #[inline(always)]
    pub fn read(&mut self, name: Name, at: u32, out: &mut [u8]) -> Result<(), Refusal>
        ensures reads { Reads (read_touches (length out.old)) (seen self.old) (seen self.new) name at out.old out.new result }
        ensures frame { ChangesNothing SLI self.old self.new }
    {
        self.check_range(name, at, out.len())?;
        self.region.read(name.at, at, out);
        Ok(())
    }

    /// Hands the payload of the block of that name to `f`, which reads and writes it where it stands, and gives back what `f` answers.
    ///
    /// `f` gets the words that hold the payload: as many as its bytes need, eight in each, the lowest bits first. Bits that it
    /// leaves in the last word past the payload's end mean nothing. Its reads and writes are not counted in the touches, and take
    /// the time that they take.
    ///
    /// Refused as `Foreign` where the name is of another heap. Otherwise as `Stale` where no live block has that place and serial;
    /// `f` is then not called. Takes no memory.
    ///
    /// ```text
    /// let name = heap.allocate(16)?;
    /// heap.alter(name, |words| words[1] = 0x6948) == Ok(())          // bytes 8 and 9 are 0x48 and 0x69
    /// ```
    pub fn alter<R, F: FnOnce(&mut [u64]) -> R>(&mut self, name: Name, f: F) -> Result<R, Refusal>
        requires { IsLive self.old.heap name → (words : List ℕ) → ArePayload self.old.heap name words → FnOnceTakesAtMut F.FnOnce f words }
        ensures answer { IsRefusedAsRead self.old.heap name result }

        // The payload that `f` was handed and that it left. The heap is as a write of those bytes makes it, so it has the same
        // blocks, and other names their bytes.
        ensures alters { AltersInPlace F.FnOnce f (seen self.old) (seen self.new) name result }

        // A refusal changes nothing.
        ensures frame { ChangesBytes SLI self.old self.new result }
    {
        let len = self.check_payload(name)?;
        Ok(self.region.alter(name.at, len, f))
    }

    /// Shows the payload of the block of that name to `f`, where it stands, and gives back what `f` answers.
    ///
    /// `f` gets the words that hold the payload: as many as its bytes need, eight in each, the lowest bits first. Bits of the last
    /// word past the payload's end mean nothing. The reads of `f` are not counted in the touches, and take the time that they take.
    ///
    /// Refused as `Foreign` where the name is of another heap. Otherwise as `Stale` where no live block has that place and serial;
    /// `f` is then not called. Takes no memory.
    ///
    /// ```text
    /// heap.inspect(name, |words| words[1]) == Ok(0x6948)              // after the alter above
    /// ```
    pub fn inspect<R, F: FnOnce(&[u64]) -> R>(&mut self, name: Name, f: F) -> Result<R, Refusal>
        requires { IsLive self.old.heap name → (words : List ℕ) → ArePayload self.old.heap name words → FnOnceTakesAt F.FnOnce f words }
        ensures answer { IsRefusedAsRead self.old.heap name result }
        ensures inspects { InspectsInPlace F.FnOnce f (seen self.old) (seen self.new) name result }
        ensures frame { ChangesNothing SLI self.old self.new }
    {
        let len = self.check_payload(name)?;
        Ok(self.region.inspect(name.at, len, f))
    }

    /// The address of the region's first word, and how many bytes of payload the block of that name has. Its payload begins
    /// at byte `8 * (name.at + 3)` from that address, until the block is released.
    ///
    /// Refused as `Foreign` where the name is of another heap; otherwise as `Stale` where no live block has that place and serial.
    /// Takes no memory.
    ///
    /// ```text
    /// let (base, len) = heap.payload(name)?;          // 16 bytes, from `base + 8 * (name.at + 3)` on
    /// ```
    pub fn payload(&mut self, name: Name) -> Result<(*mut u64, u32), Refusal>
        ensures locates { Locates self.old.extents.words.address (seen self.old) (seen self.new) name result }
        ensures frame { ChangesNothing SLI self.old self.new }
    {
        let len = self.check_payload(name)?;
        let base = self.region.base();
        Ok((base, len))
    }

    /// The report on the heap: its blocks, and how well it serves. It walks over all blocks. Takes no memory.
    ///
    /// ```text
    /// let report = Heap::<4>::open(alloc, 0, 64, 0)?.report();
    /// (report.free_words, report.grant) == (64, 488)
    /// ```
    pub fn report(&mut self) -> Report
        ensures reports { Reports SLI (seen self.old) (seen self.new) result }
        ensures frame { ChangesNothing SLI self.old self.new }
    {
        let tick = self.tick;
        Tally::of(&mut self.region, tick).report::<SLI>(tick)
    }

    /// The block that begins at a place, None where none does: a number from outside is not followed. Where there is one, the next
    /// begins at its end, `at + size`, so that a walk from place 0 meets all blocks. Takes no memory.
    ///
    /// ```text
    /// let name = heap.allocate(8)?;                    // of a new heap of 64 words: 4 of them
    /// heap.block_at(4)                                 // Some(PlacedBlock { at: 4, size: 60, content: Content::Free { stamp: 1 } })
    /// heap.block_at(5) == None
    /// ```
    pub fn block_at(&mut self, at: u32) -> Option<PlacedBlock>
        ensures looks { Looks (seen self.old) (seen self.new) at result }
        ensures unread { ¬ (Blocks.IsPlace self.old.heap.blocks at) → self.new.touched ≡ self.old.touched }
        ensures frame { ChangesNothing SLI self.old self.new }
        ensures most { self.old.heap.words ≤ most_words SLI }
    {
        self.region.block_at(at)
    }

    /// Ends the heap, and gives the words of its region and the map of the places where its blocks begin, as they stand. It is for
    /// whoever prints, keeps or compares them. Takes no memory.
    ///
    /// ```text
    /// let mut words = Heap::<4>::open(alloc, 0, 64, 0)?.into_words();
    /// words.tag(0)                                     // Tag::new(64, true, true, NO_PLACE)
    /// ```
    pub fn into_words(self) -> Words
        ensures stored { image_of result ≡ self.entry.stored }
        ensures stays { result.extents ≡ self.entry.extents }
        ensures touches { result.touches ≤ self.entry.touches }
        ensures shows { Shows self.entry.stored self.entry.heap.blocks }

        // The links of the free blocks: each class has one list, that which became free last first.
        ensures lists { ShowsLists SLI self.entry.stored self.entry.marked self.entry.heap.blocks }
    {
        self.region.into_words()
    }

    /// The tag of the live block of this heap that has that name. Where none has, `Foreign` or else `Stale`.
    #[inline(always)]
    fn check(&mut self, name: Name) -> Result<Tag, Refusal>
        ensures answer { IsNameCheck self.old.heap name result }
        ensures frame { FindsOut SLI 3 2 self.old self.new }
        ensures forged { FollowsNoForgery (seen self.old) (seen self.new) name }
    {
        if name.heap != self.id {
            return Err(Refusal::of_name(name.heap, self.id));
        }
        let Some(tag) = self.region.find_live(name.at, name.serial) else {
            return Err(Refusal::of_name(name.heap, self.id));
        };
        Ok(tag)
    }

    /// The tag of the live block that begins at a place, which may be any number. Where none does, `Stale`.
    // Not by `ok_or`: a counted release by place then takes two instructions more. By the cold `of_name`: otherwise LLVM takes what
    // comes after these tests for rare, and calls `push` there, for eight instructions more at level 4.
    #[inline(always)]
    fn check_place(&mut self, at: u32) -> Result<Tag, Refusal>
        ensures answer { IsPlaceCheck self.old.heap at result }
        ensures frame { FindsOut SLI 2 1 self.old self.new }
        ensures wild { FollowsNoPlace self.old.heap at self.old.touches self.new.touches }
        ensures unread { ¬ (Blocks.IsPlace self.old.heap.blocks at) → self.new.touched ≡ self.old.touched }
    {
        let Some(tag) = self.region.live_at(at) else {
            return Err(Refusal::of_name(self.id, self.id));
        };
        Ok(tag)
    }

    /// Refuses a call as `Worn` where the tick is at its last value.
    #[inline(always)]
    fn check_tick(&self) -> Result<(), Refusal>
        ensures answer { MatchResult result (λ done. self.now.heap.tick ≢ last_tick) (λ why. (why ≡ Refusal.Worn) × (self.now.heap.tick ≡ last_tick)) }
    {
        if self.tick == u64::MAX {
            return Err(Refusal::Worn);
        }
        Ok(())
    }

    /// Takes back the live block at a place, of this tag. A tick is left.
    // The words come off the count first. So nothing of it lives in a register over the merge.
    #[inline(always)]
    fn give_back(&mut self, at: u32, own: Tag)
        requires live { IsPlaceCheck self.old.heap at (Ok own) }
        requires tick { self.old.heap.tick ≢ last_tick }
        ensures answer { (released_by_place self.old.heap at).answer ≡ Ok tt }
        ensures heap { self.new.heap ≡ (released_by_place self.old.heap at).heap }
        ensures frame { DoesPart SLI 27 13 self.old self.new }
        ensures leaves { LeavesPayloads self.old.heap.blocks at self.old.touched self.new.touched }
    {
        self.usage.take_back(own.size());
        coalesce(&mut self.region, &mut self.tick, at, own);
    }

    /// The payload length in bytes of the live block of that name. Where none has it, `Foreign` or else `Stale`.
    fn check_payload(&mut self, name: Name) -> Result<u32, Refusal>
        ensures answer { IsPayloadCheck self.old.heap name result }
        ensures frame { FindsOut SLI 4 3 self.old self.new }
        ensures forged { FollowsNoForgery (seen self.old) (seen self.new) name }
    {
        self.check(name)?;
        Ok(self.region.length(name.at))
    }

    /// Whether `n` bytes from number `at` on are payload bytes of the block of that name.
    // The sum of both can't wrap: no slice is so long. One compare, where the rest of the payload would take two. Always inline. In
    // a call of its own, or inlined late, the answer is made in registers before it is known to be one.
    #[inline(always)]
    fn check_range(&mut self, name: Name, at: u32, n: usize) -> Result<(), Refusal>
        requires { n < 2 ^ 63 }
        ensures answer { result ≡ read_answer (read_of self.old.heap name at n) }
        ensures place { OnOk result ((i : ℕ) × IsFirst name.at name.serial self.old.heap.blocks i × (has_bytes (block_at self.old.heap.blocks i) at n ≡ true)) }
        ensures frame { FindsOut SLI 4 3 self.old self.new }
        ensures forged { FollowsNoForgery (seen self.old) (seen self.new) name }
    {
        self.check(name)?;
        let length = self.region.length(name.at) as usize;
        if at as usize + n > length {
            return Err(Refusal::Range);
        }
        Ok(())
    }

    /// A `resize_or_move` of the live block of that name, of this tag, which was found.
    #[inline(always)]
    fn refit_or_move(&mut self, name: Name, own: Tag, len: u32) -> Result<Name, Refusal>
        requires { IsNameCheck self.old.heap name (Ok own) }
        ensures answer { result ≡ (resized_or_moved SLI self.old.heap name len).answer }
        ensures heap { self.new.heap ≡ (resized_or_moved SLI self.old.heap name len).heap }
        ensures frame { Settles SLI (35 + 3 * (len / 64)) (peak_moved self.old name.at result self.new.heap) self.old self.new result }
        ensures in_place { IsOk (resized self.old.heap name len).answer → self.new.touches ≤ self.old.touches + 25 + words_grown self.old.heap len name }
        ensures elsewhere { ¬ (IsOk (resized self.old.heap name len).answer) → self.new.touches ≤ self.old.touches + 85 + 3 * payload_words_moved SLI self.old.heap len }
        ensures others { SparesOthers name.at self.old self.new result }
    {
        match self.refit(name, own, want(len), len, true) {
            Ok(()) => Ok(name),
            Err(Refusal::NoRoom) => self.relocate(name, len),
            Err(why) => Err(why),
        }
    }

    /// Moves the live block of that name to one of `len` bytes. Two ticks pass, so it is `Worn` where fewer are left.
    fn relocate(&mut self, name: Name, len: u32) -> Result<Name, Refusal>
        requires { IsLive self.old.heap name }
        ensures answer { result ≡ (moved SLI self.old.heap name len).answer }
        ensures heap { self.new.heap ≡ (moved SLI self.old.heap name len).heap }
        ensures frame { Settles SLI (34 + 3 * (len / 64)) (peak_moved self.old name.at result self.new.heap) self.old self.new result }
        ensures touches { self.new.touches ≤ self.old.touches + 61 + 3 * payload_words_moved SLI self.old.heap len }
        ensures others { SparesOthers name.at self.old self.new result }
    {
        if self.tick >= u64::MAX - 1 {
            return Err(Refusal::Worn);
        }
        let new = self.allocate(len)?;
        self.hand_over(name, new)
    }

    /// Copies the payload of the first of two live blocks to the other, as far as both reach, and releases the first. A tick is left.
    // Always inline: in a call of its own both names go through memory.
    #[inline(always)]
    fn hand_over(&mut self, name: Name, new: Name) -> Result<Name, Refusal>
        requires from { IsLive self.old.heap name }
        requires to { IsLive self.old.heap new }
        requires tick { self.old.heap.tick ≢ last_tick }
        ensures answer { result ≡ Ok new }
        ensures heap { self.new.heap ≡ (released (copied self.old.heap name new).heap name).heap }
        ensures frame { DoesPart SLI (35 + 2 * (min (length (payload_of self.old.heap name)) (length (payload_of self.old.heap new)) / 8)) (21 + 2 * (min (length (payload_of self.old.heap name)) (length (payload_of self.old.heap new)) / 64)) self.old self.new }
        ensures leaves { LeavesBoth self.old.heap.blocks name.at new.at self.old.touched self.new.touched }
    {
        let len = self.length(name).min(self.length(new));
        self.copy(name, new, len);
        self.release_live(name);
        Ok(new)
    }

    /// The tag of the live block of that name.
    fn tag_of(&mut self, name: Name) -> Tag
        requires { IsLive self.old.heap name }
        ensures tag { IsNameCheck self.old.heap name (Ok result) }
        ensures frame { FindsOut SLI 1 1 self.old self.new }
    {
        self.region.tag(name.at)
    }

    /// The payload length in bytes of the live block of that name.
    fn length(&mut self, name: Name) -> u32
        requires { IsLive self.old.heap name }
        ensures value { result ≡ length (payload_of self.old.heap name) }
        ensures frame { FindsOut SLI 1 1 self.old self.new }
    {
        self.region.length(name.at)
    }

    /// Copies the first `len` payload bytes of one live block to the first of another.
    fn copy(&mut self, from: Name, to: Name, len: u32)
        requires from { IsLive self.old.heap from }
        requires to { IsLive self.old.heap to }
        requires least { len ≤ length (payload_of self.old.heap from) }
        requires room { len ≤ length (payload_of self.old.heap to) }
        ensures heap { self.new.heap ≡ (written self.old.heap to 0 (take len (payload_of self.old.heap from))).heap }
        ensures frame { DoesPart SLI (2 * (len / 8) + 3) (4 + 2 * (len / 64)) self.old self.new }
        ensures leaves { LeavesBoth self.old.heap.blocks from.at to.at self.old.touched self.new.touched }
    {
        self.region.copy(from.at, to.at, len);
    }

    /// Says that the payload of the live block of that name is `len` bytes long, for which the block has room: those that lie there. No
    /// byte of it is read or written.
    #[inline(always)]
    fn set_length(&mut self, name: Name, len: u32)
        requires live { IsLive self.old.heap name }
        requires room { Blocks.words_for len ≤ 3 + payload_words_at (named name self.old.heap.blocks) }
        ensures heap { self.new.heap ≡ with_payload self.old.heap name (lying self.new.stored name.at len) }
        ensures lies { lying self.new.stored name.at len ≡ lying self.old.stored name.at len }
        ensures frame { DoesPart SLI 1 1 self.old self.new }
        ensures leaves { LeavesLive self.old.heap.blocks self.old.touched self.new.touched }
    {
        self.region.set_length(name.at, len);
    }
}
