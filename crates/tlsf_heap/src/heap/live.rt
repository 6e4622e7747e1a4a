ghost use Rattle.std.specs.Prelude.{◌≡◌, ◌≢◌, ◌≤◌, Ok};
ghost use Rattle.tlsf_heap.specs.Calls.{last_tick};
ghost use Rattle.tlsf_heap.specs.Kept.{ChangesNothing, DoesPart, FindsOut, Settles};
ghost use Rattle.tlsf_heap.specs.Effects.{AsksLive, Releases, Resizes};
ghost use Rattle.tlsf_heap.specs.Laws.{IsLive};
ghost use Rattle.tlsf_heap.specs.Shown.{seen};
ghost use Rattle.tlsf_heap.specs.WordsInUse.{peak_of, words_at};

use super::Heap;
use crate::name::Name;
use crate::refusal::Refusal;

impl<const SLI: u32> Heap<SLI> {
    /// Whether a live block of this heap has that name: for a caller who asks before a call. A forged name is not followed. Takes no
    /// memory.
    ///
    /// ```text
    /// let name = heap.allocate(8)?;
    /// heap.is_live(name) == true
    /// heap.release(name)?;
    /// heap.is_live(name) == false
    /// ```
    pub fn is_live(&mut self, name: Name) -> bool
        ensures asks { AsksLive (seen self.old) (seen self.new) name result }
        ensures frame { ChangesNothing SLI self.old self.new }
    {
        self.check(name).is_ok()
    }

    /// The words of a live block, its three of the header with them. They may be up to three more than were wanted. Takes no memory.
    ///
    /// ```text
    /// let name = heap.allocate(100)?;
    /// heap.words_of(name)                              // 16
    /// ```
    #[inline(always)]
    pub fn words_of(&mut self, name: Name) -> u32
        requires { IsLive self.old.heap name }
        ensures words { result ≡ words_at self.old.heap name.at }
        ensures frame { FindsOut SLI 1 1 self.old self.new }
    {
        let own = self.tag_of(name);
        own.size()
    }

    /// A `resize_words` of the live block of that name, to no payload.
    pub(super) fn resize_live(&mut self, name: Name, words: u32) -> Result<(), Refusal>
        requires live { IsLive self.old.heap name }
        requires least { 4 ≤ words }
        ensures resizes { Resizes 25 words 0 (seen self.old) (seen self.new) name result }
        ensures frame { Settles SLI 14 (peak_of self.old self.new) self.old self.new result }
    {
        let own = self.tag_of(name);
        self.refit(name, own, words, 0, true)
    }

    /// A `release` of the live block of that name. A tick is left.
    pub(super) fn release_live(&mut self, name: Name)
        requires live { IsLive self.old.heap name }
        requires tick { self.old.heap.tick ≢ last_tick }
        ensures releases { Releases 28 (seen self.old) (seen self.new) name (Ok tt) }
        ensures frame { DoesPart SLI 28 14 self.old self.new }
    {
        let own = self.tag_of(name);
        self.give_back(name.at, own);
    }
}
