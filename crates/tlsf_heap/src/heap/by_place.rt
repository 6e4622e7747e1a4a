ghost use Rattle.std.specs.Prelude.{◌≡◌, ◌<◌, MatchOption, None, Ok, Some};
ghost use Rattle.tlsf_heap.specs.Blocks;
ghost use Rattle.tlsf_heap.specs.ByPlace.{name_at};
ghost use Rattle.tlsf_heap.specs.Effects.{NamesAt, ReleasesAt};
ghost use Rattle.tlsf_heap.specs.Named.{IsNameCheck};
ghost use Rattle.tlsf_heap.specs.Kept.{FindsOut, Settles};
ghost use Rattle.tlsf_heap.specs.Shown.{seen};
ghost use Rattle.tlsf_heap.specs.Touched.{FollowsNoPlace, release_at_touches, release_groups};

use super::Heap;
use crate::name::Name;
use crate::refusal::Refusal;
use tlsf_words::Tag;

// Calls by place: of a caller who keeps no names, as one who is handed an address.
impl<const SLI: u32> Heap<SLI> {
    /// The name of the live block that begins at a place, which may be any number; `None` where none does. It is for a caller who
    /// keeps no names, as one who is handed an address. A number from outside is not followed. Takes no memory.
    ///
    /// ```text
    /// let name = heap.allocate(8)?;                    // of a new heap of 64 words, at place 0
    /// heap.name_at(0) == Some(name)
    /// heap.name_at(1) == None
    /// ```
    pub fn name_at(&mut self, at: u32) -> Option<Name>
        ensures names { NamesAt (seen self.old) (seen self.new) at result }
        ensures frame { FindsOut SLI 3 2 self.old self.new }
    {
        match self.find_at(at) {
            None => None,
            Some(block) => Some(block.0),
        }
    }

    /// Takes back the live block that begins at a place, which may be any number. It is a `release` of the name that `name_at`
    /// answers, refused as `Stale` where there is none. Otherwise as `Worn` where the tick is at its last value. Takes no memory.
    ///
    /// A place doesn't tell a block from a later one that begins there: who keeps a place past the release releases that one.
    ///
    /// ```text
    /// let name = heap.allocate(8)?;
    /// heap.release_at(name.at) == Ok(())
    /// heap.release_at(name.at) == Err(Refusal::Stale)
    /// ```
    pub fn release_at(&mut self, at: u32) -> Result<(), Refusal>
        // Accepted or refused, and whatever the region holds: one fewer than `release`, since no serial is read.
        ensures releases { ReleasesAt release_at_touches (seen self.old) (seen self.new) at result }

        // A refusal changes nothing. All lies in this many groups of eight words, but start bits and the lists.
        ensures frame { Settles SLI release_groups self.old.most_in_use self.old self.new result }
    {
        let own = self.check_place(at)?;
        self.check_tick()?;
        self.give_back(at, own);
        Ok(())
    }

    /// The name and the tag of the live block that begins at a place, which may be any number; `None` where none does.
    #[inline(always)]
    pub(super) fn find_at(&mut self, at: u32) -> Option<(Name, Tag)>
        ensures found { MatchOption result (name_at self.old.heap at ≡ None) (λ f. (name_at self.old.heap at ≡ Some f.0) × IsNameCheck self.old.heap f.0 (Ok f.1) × (f.0.at ≡ at) × (at < self.old.heap.words)) }
        ensures frame { FindsOut SLI 3 2 self.old self.new }
        ensures wild { FollowsNoPlace self.old.heap at self.old.touches self.new.touches }
        ensures unread { ¬ (Blocks.IsPlace self.old.heap.blocks at) → self.new.touched ≡ self.old.touched }
    {
        let Some(own) = self.region.live_at(at) else {
            return None;
        };
        let serial = self.region.mark(at);
        let name = Name {
            heap: self.id,
            at,
            serial,
        };
        Some((name, own))
    }
}
