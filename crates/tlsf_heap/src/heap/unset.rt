ghost use Rattle.std.specs.Prelude.{◌≡◌, ◌+◌, ◌-◌, ◌*◌, ◌/◌, ◌≤◌, length, min, replicate, IfOk, OnOk, OnErr, IsOk, Ok};
ghost use Rattle.tlsf_heap.specs.Blocks;
ghost use Rattle.tlsf_heap.specs.ByPlace.{kept_at};
ghost use Rattle.tlsf_heap.specs.Calls.{resized};
ghost use Rattle.tlsf_heap.specs.Effects.{AllocatesUnset, MovesUnset, MovesUnsetAt, ResizesUnset};
ghost use Rattle.tlsf_heap.specs.Footprint.{LeavesPayloads};
ghost use Rattle.tlsf_heap.specs.InPlace.{payload_of};
ghost use Rattle.tlsf_heap.specs.Laws.{IsLive};
ghost use Rattle.tlsf_heap.specs.Moved.{moved, resized_or_moved};
ghost use Rattle.tlsf_heap.specs.Named.{IsNameCheck};
ghost use Rattle.tlsf_heap.specs.Touched.{allocate_touches, groups_of, move_unset_touches, resize_unset_touches};
ghost use Rattle.tlsf_heap.specs.Unset.{unset_from, with_payload};
ghost use Rattle.tlsf_heap.specs.Kept.{DoesPart, Settles, SparesOthers};
ghost use Rattle.tlsf_heap.specs.WordsInUse.{peak_moved, peak_of};
ghost use Rattle.tlsf_words.specs.Touched.{InGroups};
ghost use Rattle.tlsf_heap.specs.Shown.{seen};

use super::{Heap, want};
use crate::fitting::{carve, choose};
use crate::name::Name;
use crate::refusal::Refusal;
use tlsf_words::Tag;

// Calls that fill nothing: for a caller who fills the payload himself before he reads it.
impl<const SLI: u32> Heap<SLI> {
    /// Gives a block that holds `len` bytes of payload, as `allocate`, and fills nothing: its bytes are those that lie there, whatever
    /// they are. So it takes no longer for more bytes, and touches none of them.
    ///
    /// Refused as `NoFit` where no free block lies in a class at or above the search class of the words wanted. Otherwise as `Worn`
    /// where the tick is at its last value. Takes no memory.
    ///
    /// ```text
    /// let name = heap.allocate_unset(65536)?;          // 64 KiB, in the touches of 8 bytes
    /// ```
    // Always inline, as `allocate_words` is: in a call of its own it saves its registers twice.
    #[inline(always)]
    pub fn allocate_unset(&mut self, len: u32) -> Result<Name, Refusal>
        // Accepted or refused, and whatever the region holds.
        ensures allocates { AllocatesUnset allocate_touches SLI (Blocks.want len) len (seen self.old) (seen self.new) self.new.stored result }

        // A refusal changes nothing.
        ensures frame { Settles SLI 11 (peak_of self.old self.new) self.old self.new result }
    {
        self.allocate_unset_words(want(len), len)
    }

    /// An `allocate_unset` of a block of `words` words.
    #[inline(always)]
    pub(super) fn allocate_unset_words(&mut self, words: u32, len: u32) -> Result<Name, Refusal>
        requires { Blocks.want len ≤ words }
        ensures allocates { AllocatesUnset allocate_touches SLI words len (seen self.old) (seen self.new) self.new.stored result }
        ensures frame { Settles SLI 11 (peak_of self.old self.new) self.old self.new result }
    {
        let Some(class) = choose(&mut self.region, words) else {
            return Err(Refusal::NoFit);
        };
        if self.tick == u64::MAX {
            return Err(Refusal::Worn);
        }
        let serial = self.tick;
        let given = carve(&mut self.region, class, words, serial, len);
        self.usage.give(given.words);
        self.tick += 1;
        Ok(Name {
            heap: self.id,
            at: given.at,
            serial,
        })
    }

    /// Makes the payload of a live block zero, which is `len` bytes long: all bytes of the words that hold it. An `allocate_unset` and
    /// this are an `allocate`, for a caller who keeps the name elsewhere before the zeros are written. Takes no memory.
    ///
    /// ```text
    /// let name = heap.allocate_unset(100)?;
    /// heap.zero_payload(name, 100);                    // as after `allocate`
    /// ```
    #[inline(always)]
    pub fn zero_payload(&mut self, name: Name, len: u32)
        requires live { IsLive self.old.heap name }
        requires length { length (payload_of self.old.heap name) ≡ len }
        ensures heap { self.new.heap ≡ with_payload self.old.heap name (replicate len 0) }
        ensures frame { DoesPart SLI (Blocks.want len - 3) (groups_of (Blocks.want len - 3)) self.old self.new }
        ensures leaves { LeavesPayloads self.old.heap.blocks name.at self.old.touched self.new.touched }
    {
        self.region.zero(name.at, want(len) - 3);
    }

    /// Makes the payload of the block of that name `len` bytes long, where the block stands, as `resize`, and fills nothing. The
    /// bytes up to the smaller length stay, and new ones are those that lie there. So it takes no longer for more bytes.
    ///
    /// Refused as `resize`: as `Foreign` where the name is of another heap. Otherwise as `Stale` where no live block has that place
    /// and serial. Otherwise as `NoRoom` where the block and a free one behind it have fewer words than wanted. Otherwise as `Worn`
    /// where the tick is at its last value. Takes no memory.
    ///
    /// ```text
    /// let name = heap.allocate_unset(8)?;              // of a new heap of 64 words
    /// heap.resize_unset(name, 100) == Ok(())           // the eight bytes stay, and nobody wrote the others
    /// ```
    pub fn resize_unset(&mut self, name: Name, len: u32) -> Result<(), Refusal>
        // Accepted or refused, and whatever the region holds.
        ensures resizes { ResizesUnset resize_unset_touches len (seen self.old) (seen self.new) self.new.stored name result }

        // A refusal changes nothing.
        ensures frame { Settles SLI 17 (peak_of self.old self.new) self.old self.new result }
        ensures refused_groups { OnErr result (InGroups 4 self.old.touched self.new.touched) }
    {
        let own = self.check(name)?;
        self.refit_unset(name, own, len)
    }

    /// Makes the payload of the block of that name `len` bytes long, where the block stands or else in another block, as
    /// `resize_or_move`. It fills nothing: the bytes up to the smaller length stay, and new ones are those that lie there. So a
    /// move takes as long as it is to copy the bytes that stay. The answer is the name that the payload has from then on; where it
    /// isn't the old one, the old one is stale.
    ///
    /// Refused as `resize_or_move`: as `Foreign` where the name is of another heap; otherwise as `Stale` where no live block has
    /// that place and serial. Where there is room at its place it is refused as `Worn` where the tick is at its last value. Where
    /// there is none, as `Worn` where fewer than two ticks are left; otherwise as `NoFit` where `allocate` finds no block. A
    /// refusal changes nothing. Takes no memory.
    ///
    /// ```text
    /// let name = heap.allocate_unset(8)?;              // of a new heap of 64 words: 4 of them
    /// let wall = heap.allocate_unset(8)?;              // right behind it
    /// let moved = heap.resize_or_move_unset(name, 100)?;           // at place 8, with the eight bytes
    /// ```
    pub fn resize_or_move_unset(&mut self, name: Name, len: u32) -> Result<Name, Refusal>
        // Accepted or refused, and whatever the region holds. Where there is room at its place, it takes as many touches as
        // `resize_unset`.
        ensures moves { MovesUnset resize_unset_touches move_unset_touches SLI len (seen self.old) (seen self.new) self.new.stored name result }

        // A refusal changes nothing.
        ensures frame { Settles SLI (39 + 2 * (min (length (payload_of self.old.heap name)) len / 64)) (peak_moved self.old name.at result self.new.heap) self.old self.new result }
    {
        let own = self.check(name)?;
        self.refit_or_move_unset(name, own, len)
    }

    /// A `resize_or_move_unset` of the live block that begins at a place, which may be any number. A number from outside is not
    /// followed.
    ///
    /// Refused as `Stale` if no live block begins there, and otherwise as `resize_or_move_unset` refuses: `Worn` or `NoFit`. A refusal
    /// changes nothing. Takes no memory.
    ///
    /// ```text
    /// let name = heap.allocate_unset(8)?;              // of a new heap of 64 words, at place 0
    /// heap.resize_or_move_unset_at(0, 100) == Ok(name)
    /// heap.resize_or_move_unset_at(1, 100) == Err(Refusal::Stale)
    /// ```
    pub fn resize_or_move_unset_at(&mut self, at: u32, len: u32) -> Result<Name, Refusal>
        ensures moves { MovesUnsetAt resize_unset_touches move_unset_touches SLI len (seen self.old) (seen self.new) self.new.stored at result }
        ensures frame { Settles SLI (39 + 2 * (kept_at self.old.heap at len / 64)) (peak_moved self.old at result self.new.heap) self.old self.new result }
    {
        match self.find_at(at) {
            None => Err(Refusal::Stale),
            Some(block) => self.refit_or_move_unset(block.0, block.1, len),
        }
    }

    /// A `resize_unset` of the live block of that name, of this tag, which was found.
    #[inline(always)]
    fn refit_unset(&mut self, name: Name, own: Tag, len: u32) -> Result<(), Refusal>
        requires { IsNameCheck self.old.heap name (Ok own) }
        ensures answer { result ≡ (resized self.old.heap name len).answer }
        ensures heap { OnOk result (self.new.heap ≡ unset_from (resized self.old.heap name len).heap name self.new.stored (min (length (payload_of self.old.heap name)) len) len) }
        ensures frame { Settles SLI 15 (peak_of self.old self.new) self.old self.new result }
        ensures touches { self.new.touches ≤ self.old.touches + 27 }
        ensures others { SparesOthers name.at self.old self.new result }
        ensures refused_groups { OnErr result (InGroups 2 self.old.touched self.new.touched) }
    {
        let kept = self.length(name).min(len);
        self.refit(name, own, want(len), kept, false)?;
        self.set_length(name, len);
        Ok(())
    }

    /// A `resize_or_move_unset` of the live block of that name, of this tag, which was found.
    #[inline(always)]
    fn refit_or_move_unset(&mut self, name: Name, own: Tag, len: u32) -> Result<Name, Refusal>
        requires { IsNameCheck self.old.heap name (Ok own) }
        ensures answer { result ≡ (resized_or_moved SLI self.old.heap name len).answer }
        ensures heap { IfOk result (λ new. self.new.heap ≡ unset_from (resized_or_moved SLI self.old.heap name len).heap new self.new.stored (min (length (payload_of self.old.heap name)) len) len) }
        ensures frame { Settles SLI (37 + 2 * (min (length (payload_of self.old.heap name)) len / 64)) (peak_moved self.old name.at result self.new.heap) self.old self.new result }
        ensures touches { self.new.touches ≤ self.old.touches + 88 + 2 * (min (length (payload_of self.old.heap name)) len / 8) }
        ensures in_place { IsOk (resized self.old.heap name len).answer → self.new.touches ≤ self.old.touches + 27 }
        ensures others { SparesOthers name.at self.old self.new result }
    {
        match self.refit_unset(name, own, len) {
            Ok(()) => Ok(name),
            Err(Refusal::NoRoom) => self.relocate_unset(name, len),
            Err(why) => Err(why),
        }
    }

    /// Moves the live block of that name to one of `len` bytes, which it doesn't fill. Two ticks pass, so it is `Worn` where fewer are left.
    fn relocate_unset(&mut self, name: Name, len: u32) -> Result<Name, Refusal>
        requires { IsLive self.old.heap name }
        ensures answer { result ≡ (moved SLI self.old.heap name len).answer }
        ensures heap { IfOk result (λ new. self.new.heap ≡ unset_from (moved SLI self.old.heap name len).heap new self.new.stored (min (length (payload_of self.old.heap name)) len) len) }
        ensures frame { Settles SLI (35 + 2 * (min (length (payload_of self.old.heap name)) len / 64)) (peak_moved self.old name.at result self.new.heap) self.old self.new result }
        ensures touches { self.new.touches ≤ self.old.touches + 61 + 2 * (min (length (payload_of self.old.heap name)) len / 8) }
        ensures others { SparesOthers name.at self.old self.new result }
    {
        if self.tick >= u64::MAX - 1 {
            return Err(Refusal::Worn);
        }
        let new = self.allocate_unset(len)?;
        self.hand_over(name, new)
    }
}
