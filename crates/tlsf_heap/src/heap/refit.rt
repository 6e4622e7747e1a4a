//! A resize of a block that was found.
ghost use Rattle.std.specs.Prelude.{◌≡◌, ◌+◌, ◌-◌, ◌/◌, ◌≤◌, false, length, OnErr, Ok};
ghost use Rattle.tlsf_heap.specs.Blocks;
ghost use Rattle.tlsf_heap.specs.Calls.{resized_words};
ghost use Rattle.tlsf_heap.specs.Given.{payload_words_left};
ghost use Rattle.tlsf_heap.specs.InPlace.{payload_of, words_grown};
ghost use Rattle.tlsf_heap.specs.Kept.{Settles, SparesOthers};
ghost use Rattle.tlsf_heap.specs.Named.{IsNameCheck};
ghost use Rattle.tlsf_heap.specs.WordsInUse.{peak_of};
ghost use Rattle.tlsf_words.specs.Touched.{InGroups};

use super::Heap;
use crate::name::Name;
use crate::refitting::{grow, look_behind, shrink};
use crate::refusal::Refusal;
use tlsf_words::Tag;

impl<const SLI: u32> Heap<SLI> {
    /// A `resize_words` of the live block of that name, of this tag, which was found. Where the payload doesn't grow, `grows` is false.
    // The block behind is read only if this one grows, or if something is cut off.
    #[inline(always)]
    pub(super) fn refit(
        &mut self,
        name: Name,
        own: Tag,
        words: u32,
        len: u32,
        grows: bool,
    ) -> Result<(), Refusal>
        requires payload { Blocks.want len ≤ words }
        requires found { IsNameCheck self.old.heap name (Ok own) }
        requires grows { grows ≡ false → len ≤ length (payload_of self.old.heap name) }
        ensures answer { result ≡ (resized_words self.old.heap name words len).answer }
        ensures heap { self.new.heap ≡ (resized_words self.old.heap name words len).heap }
        ensures frame { Settles SLI (13 + (len - length (payload_of self.old.heap name)) / 64) (peak_of self.old self.new) self.old self.new result }
        ensures touches { self.new.touches ≤ self.old.touches + 24 + payload_words_left result self.new.heap name }
        ensures grown { self.new.touches ≤ self.old.touches + 25 + words_grown self.old.heap len name }
        ensures others { SparesOthers name.at self.old self.new result }
        ensures refused_groups { OnErr result (InGroups 1 self.old.touched self.new.touched) }
    {
        let held = own.size();
        if words <= held {
            if self.tick == u64::MAX {
                return Err(Refusal::Worn);
            }
            let left = shrink(&mut self.region, name.at, own, words, len, grows, self.tick);
            self.usage.take_back(held - left);
            self.tick += 1;
            return Ok(());
        }
        let next = look_behind(&mut self.region, name.at, own);
        let room = held + next.size();
        if room < words {
            return Err(Refusal::NoRoom);
        }
        if self.tick == u64::MAX {
            return Err(Refusal::Worn);
        }
        let left = grow(
            &mut self.region,
            name.at,
            own,
            next,
            words,
            len,
            grows,
            self.tick,
        );
        self.usage.give(left - held);
        self.tick += 1;
        Ok(())
    }
}
