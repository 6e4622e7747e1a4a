//! The sums that a report is made of. Sizes and places are in words.
ghost use Rattle.std.specs.Prelude.{◌≡◌, ℕ, ◌*◌, ◌+◌, ◌<◌, ◌≤◌, ◌^◌, [], length, max, min};
ghost use Rattle.std.specs.List.{AllByRecursion};
ghost use Rattle.tlsf_class.specs.Classes.{IsLevel};
ghost use Rattle.tlsf_heap.specs.Blocks.{words_in};
ghost use Rattle.tlsf_heap.specs.Footprint.{LeavesLive};
ghost use Rattle.tlsf_heap.specs.Lawful.{HasRoom, IsRegion};
ghost use Rattle.tlsf_heap.specs.Regions.{OnlyReads};
ghost use Rattle.tlsf_heap.specs.Reports.{fragmentation_of};
ghost use Rattle.tlsf_heap.specs.Tallies.{tally_of, IsTallyUpTo, granted, told};

use crate::region::Region;
use crate::report::Report;
use tlsf_class::{class_of, low};

/// Sums over some blocks of a region.
#[derive(Clone, Copy)]
pub struct Tally {
    live_blocks: u32,
    live_words: u32,
    live_bytes: u32,
    free_blocks: u32,
    free_words: u32,
    /// The words of the greatest free block, or 0.
    largest: u32,
    /// The least stamp of a free block, or the tick.
    oldest: u64,
}

impl Tally {
    /// The sums over all blocks of a region at a tick.
    pub fn of<const SLI: u32>(region: &mut Region<SLI>, tick: u64) -> Tally
        requires rooms { AllByRecursion HasRoom region.old.blocks }
        requires small { words_in region.old.blocks ≤ 2 ^ 24 }
        requires whole { words_in region.old.blocks ≡ region.old.words }
        ensures sums { result ≡ tally_of tick region.old.blocks }
        ensures reads { OnlyReads region.old region.new (2 * length region.old.blocks) }
        ensures touched { LeavesLive region.old.blocks region.old.touched region.new.touched }
    {
        let words = region.len();
        let mut tally = Tally::new(tick);
        let mut at = 0;
        while at < words {
            at = tally.add(region, at);
        }
        tally
    }

    /// The sums over no blocks.
    fn new(tick: u64) -> Tally
        ensures { result ≡ tally_of tick [] }
    {
        Tally {
            live_blocks: 0,
            live_words: 0,
            live_bytes: 0,
            free_blocks: 0,
            free_words: 0,
            largest: 0,
            oldest: tick,
        }
    }

    /// Adds the block at a place to those before it, and answers the place behind it.
    fn add<const SLI: u32>(&mut self, region: &mut Region<SLI>, at: u32) -> u32
        requires rooms { AllByRecursion HasRoom region.old.blocks }
        requires small { words_in region.old.blocks ≤ 2 ^ 24 }
        requires within { at < words_in region.old.blocks }
        requires sums { (tick : ℕ) × IsTallyUpTo tick region.old.blocks at self.old }
        ensures sums { (tick : ℕ) → IsTallyUpTo tick region.old.blocks at self.old → IsTallyUpTo tick region.old.blocks result self.new }
        ensures one { self.new.live_blocks + self.new.free_blocks ≡ self.old.live_blocks + self.old.free_blocks + 1 }
        ensures behind { at < result }
        ensures reads { OnlyReads region.old region.new 2 }
        ensures touched { LeavesLive region.old.blocks region.old.touched region.new.touched }
    {
        let tag = region.tag(at);
        let size = tag.size();
        if tag.is_free() {
            self.add_free(size, region.mark(at));
        } else {
            self.add_live(size, region.length(at));
        }
        at + size
    }

    /// Adds a live block.
    fn add_live(&mut self, size: u32, length: u32)
        requires blocks { self.old.live_blocks < 2 ^ 24 }
        requires words { self.old.live_words + size ≤ 2 ^ 24 }
        requires bytes { self.old.live_bytes + length ≤ 2 ^ 27 }
        ensures { self.new ≡ record self.old {
          live_blocks = self.old.live_blocks + 1;
          live_words = self.old.live_words + size;
          live_bytes = self.old.live_bytes + length;
        } }
    {
        self.live_blocks += 1;
        self.live_words += size;
        self.live_bytes += length;
    }

    /// Adds a free block.
    fn add_free(&mut self, size: u32, stamp: u64)
        requires blocks { self.old.free_blocks < 2 ^ 24 }
        requires words { self.old.free_words + size ≤ 2 ^ 24 }
        ensures { self.new ≡ record self.old {
          free_blocks = self.old.free_blocks + 1;
          free_words = self.old.free_words + size;
          largest = max self.old.largest size;
          oldest = min self.old.oldest stamp;
        } }
    {
        self.free_blocks += 1;
        self.free_words += size;
        self.largest = self.largest.max(size);
        self.oldest = self.oldest.min(stamp);
    }

    /// The report that these sums make at a tick.
    pub fn report<const SLI: u32>(self, tick: u64) -> Report
        requires level { IsLevel SLI }
        requires live { self.live_words ≤ 2 ^ 24 }
        requires free { self.free_words ≤ 2 ^ 24 }
        requires bytes { self.live_bytes ≤ 8 * self.live_words }
        requires largest { 0 < self.largest → IsRegion SLI self.largest }
        requires part { self.largest ≤ self.free_words }
        requires past { self.oldest ≤ tick }
        ensures { result ≡ told SLI self tick }
    {
        Report {
            live_blocks: self.live_blocks,
            live_words: self.live_words,
            live_bytes: self.live_bytes,
            free_blocks: self.free_blocks,
            free_words: self.free_words,
            largest: self.largest,
            grant: grant::<SLI>(self.largest),
            fragmentation: fragmentation(self.largest, self.free_words),
            waste: 8 * self.live_words - self.live_bytes,
            age: tick - self.oldest,
        }
    }
}

/// The greatest length in bytes that is served where the greatest free block has `largest` words, or 0.
fn grant<const SLI: u32>(largest: u32) -> u32
    requires level { IsLevel SLI }
    requires region { 0 < largest → IsRegion SLI largest }
    ensures { result ≡ granted SLI largest }
{
    if largest == 0 {
        return 0;
    }
    8 * (low(class_of::<SLI>(largest)) - 3)
}

/// The thousandths of the free words that are not in the greatest block, or 0.
fn fragmentation(largest: u32, words: u32) -> u32
    requires { largest ≤ words }
    ensures { result ≡ fragmentation_of largest words }
{
    if words == 0 {
        return 0;
    }
    // In 64 bits: a region of level 5 may have more than 2^32 thousandths.
    1000 - (1000 * u64::from(largest) / u64::from(words)) as u32
}
