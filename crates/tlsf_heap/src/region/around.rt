//! Looks at the headers that one call is about to follow.
ghost use Rattle.std.specs.Prelude.{◌≡◌, ◌+◌, ◌≤◌, slice_get};
ghost use Rattle.tlsf_heap.specs.Around.{IsAroundCheck, TellsTaken, around_touches, taken_touches};
ghost use Rattle.tlsf_heap.specs.Checks.{Begins};
ghost use Rattle.tlsf_heap.specs.Footprint.{LeavesLive};
ghost use Rattle.tlsf_heap.specs.Regions.{list_in, OnlyReads};

use super::Region;
use crate::around;
use crate::checked::Checked;
use tlsf_class::Class;

impl<const SLI: u32> Region<SLI> {
    /// The place at the head of the list of a class, `None` where the list is empty.
    pub fn head(&mut self, class: Class<SLI>) -> Option<u32>
        ensures place { result ≡ slice_get (list_in self.old.lists class.entry) 0 }
        ensures reads { OnlyReads self.old self.new 1 }
        ensures untouched { self.new.touched ≡ self.old.touched }
    {
        self.lists.first(class)
    }

    /// Looks at the block at a place, of all numbers, and at both its neighbours, as [`crate::check_around`] does.
    pub fn check_around(&mut self, at: u32) -> Option<Checked>
        ensures answer { IsAroundCheck self.old.stored at result }
        ensures reads { OnlyReads self.old self.new around_touches }
        ensures outside { self.old.words ≤ at → self.new.touches ≡ self.old.touches }
        ensures nowhere { ¬ (Begins self.old.stored at) → self.new.touches ≤ self.old.touches + 1 }
        ensures unread { ¬ (Begins self.old.stored at) → self.new.touched ≡ self.old.touched }
        ensures touched { LeavesLive self.old.blocks self.old.touched self.new.touched }
    {
        around::check_around(&mut self.words, at)
    }

    /// Looks at the free block at a place that a request of `least` words is about to take, as [`crate::check_taken`] does.
    pub fn check_taken(&mut self, at: u32, least: u32) -> Checked
        ensures answer { TellsTaken self.old.stored at least result }
        ensures reads { OnlyReads self.old self.new taken_touches }
        ensures touched { LeavesLive self.old.blocks self.old.touched self.new.touched }
    {
        around::check_taken(&mut self.words, at, least)
    }
}
