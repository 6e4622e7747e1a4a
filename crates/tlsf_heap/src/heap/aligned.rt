ghost use Rattle.std.specs.Prelude.{◌≡◌, ◌+◌, ◌%◌, ◌^◌, ◌<◌, ◌≤◌, max, IsOk};
ghost use Rattle.tlsf_class.specs.Classes.{most_words};
ghost use Rattle.tlsf_heap.specs.Aligned.{words_from, gap_of, moved_on, AnswersFrom};
ghost use Rattle.tlsf_heap.specs.Blocks;
ghost use Rattle.tlsf_heap.specs.Calls.{last_tick, named};
ghost use Rattle.tlsf_heap.specs.Effects.{AllocatesAligned, AllocatesFrom};
ghost use Rattle.tlsf_heap.specs.Given.{payload_words_at};
ghost use Rattle.tlsf_heap.specs.Footprint.{LeavesLive, LeavesPayloads};
ghost use Rattle.tlsf_heap.specs.Laws.{IsLive};
ghost use Rattle.tlsf_heap.specs.Shown.{seen};
ghost use Rattle.tlsf_heap.specs.Kept.{Keeps, Settles};
ghost use Rattle.tlsf_heap.specs.Touched.{FollowsNoPlace, allocate_aligned_touches, allocate_from_touches};
ghost use Rattle.tlsf_heap.specs.WordsInUse.{words_in_use, peak_of};
ghost use Rattle.tlsf_words.specs.Touched.{InGroups};

use super::{Heap, want};
use crate::fitting::give;
use crate::name::Name;
use crate::refusal::Refusal;
use tlsf_class::most_words;

/// The words by which the payload of a block at a place has to move on. It then begins `skew` words before a multiple of `step`
/// words. They are none, or at least four, since no block is smaller.
fn gap(at: u32, step: u32, skew: u32) -> u32
    requires at { at ≤ 2 ^ 24 }
    requires some { 0 < step }
    requires most { step ≤ 2 ^ 24 }
    ensures { result ≡ gap_of at step skew }
{
    // In 32 bits, since many processors of 32 have no division of 64. Whole steps of `skew` make no difference.
    let past = (at + 3 + skew % step) % step;
    if past == 0 {
        return 0;
    }
    4 + (5 * step - 4 - past) % step
}

// Calls for a block that begins at a place, or for a payload that does.
impl<const SLI: u32> Heap<SLI> {
    /// Gives a block that holds `len` bytes of payload out of the free block that begins at a place, which may be any number. It
    /// fills nothing: the bytes are those that lie there. Where the free block has four words or more above those wanted, they stay
    /// free behind it.
    ///
    /// Refused as `Stale` where no free block begins there. Otherwise as `NoRoom` where it has fewer words than are wanted.
    /// Otherwise as `Worn` where the tick is at its last value. A number from outside is not followed. Takes no memory.
    ///
    /// ```text
    /// let name = heap.allocate(8)?;                    // of a new heap of 64 words: those at place 4 are free
    /// heap.allocate_from(4, 100)                       // Ok(Name { heap: 0, at: 4, serial: 2 })
    /// heap.allocate_from(4, 100) == Err(Refusal::Stale)
    /// ```
    pub fn allocate_from(&mut self, at: u32, len: u32) -> Result<Name, Refusal>
        // Accepted or refused, and whatever the region holds.
        ensures allocates { AllocatesFrom allocate_from_touches len (seen self.old) (seen self.new) self.new.stored at result }

        // A refusal changes nothing.
        ensures frame { Settles SLI 12 (peak_of self.old self.new) self.old self.new result }
    {
        let name = match self.words_from(at, want(len)) {
            Ok(name) => name,
            Err(why) => return Err(why),
        };
        self.set_length(name, len);
        Ok(name)
    }

    /// Gives a block that holds `len` bytes of payload, and fills nothing: the bytes are those that lie there. Its payload begins
    /// `skew` words before a multiple of `step` words of the region. A step of 0 counts as 1.
    ///
    /// It asks for a block of `step + 4` words more than are wanted. All else of it stays free.
    ///
    /// Refused as `Worn` where fewer than four ticks are left, since it takes up to four. Otherwise as `NoFit` where no free block
    /// lies in a class at or above the search class of the words that it asks for. Takes no memory.
    ///
    /// ```text
    /// let name = heap.allocate_aligned(100, 8, 0)?;    // its payload begins at word 8, 16, 24 ..
    /// (name.at + 3) % 8 == 0
    /// ```
    pub fn allocate_aligned(&mut self, len: u32, step: u32, skew: u32) -> Result<Name, Refusal>
        // Accepted or refused, and whatever the region holds.
        ensures allocates { AllocatesAligned allocate_aligned_touches SLI len (max step 1) skew (seen self.old) (seen self.new) self.new.stored result }

        // A refusal changes nothing.
        ensures frame { Settles SLI 51 (peak_of self.old self.new) self.old self.new result }
    {
        if self.tick >= u64::MAX - 3 {
            return Err(Refusal::Worn);
        }
        let step = step.max(1);
        if step > most_words::<SLI>() {
            return Err(Refusal::NoFit);
        }
        let words = want(len);
        let most = self.usage.most;
        let first = match self.allocate_unset_words(words + 4 + step, 0) {
            Ok(first) => first,
            Err(why) => return Err(why),
        };
        let gap = gap(first.at, step, skew);
        let name = self.move_on(first, gap, words)?;
        // The words that were asked for and came back were in use for nobody.
        self.set_most_in_use(most);
        self.set_length(name, len);
        Ok(name)
    }

    /// Says that up to now no more than `most` words were ever in use.
    fn set_most_in_use(&mut self, most: u32)
        ensures heap { self.new.heap ≡ self.old.heap }
        ensures most { self.new.most_in_use ≡ max most (words_in_use self.new.heap) }
        ensures keeps { Keeps SLI self.old self.new }
        ensures touches { self.new.touches ≡ self.old.touches }
        ensures touched { self.new.touched ≡ self.old.touched }
    {
        self.usage.most = most.max(self.usage.words);
    }

    /// Takes the block of that name, which has `words` words after the first `gap`. Makes it one of `words` words without payload
    /// that begins `gap` words further on. Those before it are released. Three ticks at most pass.
    fn move_on(&mut self, name: Name, gap: u32, words: u32) -> Result<Name, Refusal>
        requires live { IsLive self.old.heap name }
        requires room { gap + words ≤ 3 + payload_words_at (named name self.old.heap.blocks) }
        requires least { 4 ≤ words }
        requires front { 0 < gap → 4 ≤ gap }
        requires left { self.old.heap.tick + 2 < last_tick }
        requires small { self.old.heap.words ≤ 2 ^ 24 }
        ensures answer { result ≡ (moved_on self.old.heap name gap words).answer }
        ensures heap { self.new.heap ≡ (moved_on self.old.heap name gap words).heap }
        ensures ok { IsOk result }
        ensures keeps { Keeps SLI self.old self.new }
        ensures touches { self.new.touches ≤ self.old.touches + 77 }
        ensures leaves { LeavesPayloads self.old.heap.blocks name.at self.old.touched self.new.touched }
        ensures groups { InGroups 39 self.old.touched self.new.touched }
    {
        if gap == 0 {
            self.resize_live(name, words)?;
            return Ok(name);
        }
        self.resize_live(name, gap)?;
        let moved = self.words_from(name.at + gap, words)?;
        self.release_live(name);
        Ok(moved)
    }

    /// Gives a block of `words` words without payload out of the free block that begins at a place, which may be any number.
    fn words_from(&mut self, at: u32, words: u32) -> Result<Name, Refusal>
        requires { 4 ≤ words }
        ensures answer { result ≡ (words_from self.old.heap at words).answer }
        ensures heap { self.new.heap ≡ (words_from self.old.heap at words).heap }
        ensures cases { AnswersFrom self.old.heap at words result }
        ensures frame { Settles SLI 11 (peak_of self.old self.new) self.old self.new result }
        ensures touches { self.new.touches ≤ self.old.touches + 23 }
        ensures leaves { LeavesLive self.old.heap.blocks self.old.touched self.new.touched }
        ensures wild { FollowsNoPlace self.old.heap at self.old.touches self.new.touches }
        ensures unread { ¬ (Blocks.IsPlace self.old.heap.blocks at) → self.new.touched ≡ self.old.touched }
    {
        let Some(own) = self.region.free_at(at) else {
            return Err(Refusal::Stale);
        };
        let size = own.size();
        if size < words {
            return Err(Refusal::NoRoom);
        }
        if self.tick == u64::MAX {
            return Err(Refusal::Worn);
        }
        self.region.remove(size, at);
        let serial = self.tick;
        let given = give(&mut self.region, at, own, words, serial, 0);
        self.usage.give(given);
        self.tick = serial + 1;
        Ok(Name {
            heap: self.id,
            at,
            serial,
        })
    }
}
