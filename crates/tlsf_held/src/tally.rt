ghost use Rattle.tlsf_class.specs.Classes.{IsLevel};
ghost use Rattle.std.specs.Prelude.{◌≡◌};
ghost use Rattle.tlsf_held.specs.Tallies as told;

use tlsf_crew::{Call, CrewRefusal, Entry, Reply};
use tlsf_pool::mixed_region;

/// The requests of one worker's calls to its heap so far.
#[derive(Clone, Copy, Debug, PartialEq, Eq)]
pub struct Tally {
    /// The blocks that are held: accepted allocates less accepted releases.
    pub held: usize,
    /// The most blocks that were held at once. One that was asked for counts, also where it was refused.
    pub most: usize,
    /// The most bytes that were asked for, by an allocate or a resize.
    pub longest: u32,
}

/// Whether the heap gave a block.
pub fn is_given(reply: Reply) -> bool
    ensures { result ≡ told.is_given reply }
{
    matches!(reply, Reply::Made(_))
}

// Whether the heap took a block back.
fn is_freed(reply: Reply) -> bool
    ensures { result ≡ told.is_freed reply }
{
    matches!(reply, Reply::Freed)
}

// Whether the heap took the block of a post back.
fn is_post_freed(reply: Reply) -> bool
    ensures { result ≡ told.is_post_freed reply }
{
    match reply {
        Reply::Took(took) => took.answer.is_ok(),
        _ => false,
    }
}

// Whether the heap was asked to resize a block, and answered.
fn is_judged(reply: Reply) -> bool
    ensures { result ≡ told.is_judged reply }
{
    matches!(reply, Reply::Resized | Reply::Refused(CrewRefusal::Heap(_)))
}

impl Tally {
    ghost use Rattle.std.specs.Prelude.{◌+◌, ◌<◌, ◌≤◌, ◌^◌};
    ghost use Rattle.tlsf_held.specs.HeldLines.{held_region};
    ghost use Rattle.tlsf_held.specs.Tallies.{with_length, with_release, with_request, noted, tally_of};

    /// The tally that the entries of a run tell of a worker's calls.
    pub fn of(worker: u32, entries: &[Entry]) -> Tally
        ensures { result ≡ tally_of worker entries.now }
    {
        let mut tally = Tally {
            held: 0,
            most: 0,
            longest: 0,
        };
        for entry in entries {
            if entry.worker == worker {
                tally.note(entry);
            }
        }
        tally
    }

    // Notes a request for this many bytes.
    fn note_length(&mut self, len: u32)
        ensures { self.new ≡ with_length self.old len }
    {
        self.longest = self.longest.max(len);
    }

    // Notes a request for a block, which was given or not.
    fn note_request(&mut self, len: u32, given: bool)
        requires { self.old.held + 1 < 2 ^ 64 }
        ensures { self.new ≡ with_request self.old len given }
    {
        self.note_length(len);
        let asked = self.held + 1;
        self.most = self.most.max(asked);
        if given {
            self.held = asked;
        }
    }

    // Notes the release of a block, which was taken back or not.
    fn note_release(&mut self, freed: bool)
        ensures { self.new ≡ with_release self.old freed }
    {
        if freed {
            self.held = self.held.saturating_sub(1);
        }
    }

    // Notes an entry of the worker.
    fn note(&mut self, entry: &Entry)
        requires { self.old.held + 1 < 2 ^ 64 }
        ensures noted { self.new ≡ noted self.old entry.now.call entry.now.reply }
        ensures few { self.new.held ≤ self.old.held + 1 }
    {
        match entry.call {
            Call::Allocate { len } => self.note_request(len, is_given(entry.reply)),
            Call::Release { .. } => self.note_release(is_freed(entry.reply)),
            Call::Take { .. } => self.note_release(is_post_freed(entry.reply)),
            Call::Resize { len, .. } => {
                if is_judged(entry.reply) {
                    self.note_length(len);
                }
            }
            Call::Write { .. } | Call::Read { .. } | Call::Drain { .. } => {}
        }
    }

    /// The words of a region in which such calls are never refused for want of room, 4 to 2^20, at level 5 to 2^24. None where no
    /// region has that many. Calls that ask for no block are served by a region of 4 words, however long a resize among them is.
    #[tactic(auto, unfolding(crate::specs::HeldLines::held_region))]
    pub fn region<const SLI: u32>(&self) -> Option<u32>
        requires { IsLevel SLI }
        ensures { result ≡ held_region SLI self.now.most self.now.longest }
    {
        if self.most == 0 {
            return Some(4);
        }
        // A block has four words at least, so no region has room for more.
        if self.most > u32::MAX as usize {
            return None;
        }
        mixed_region::<SLI>(self.most as u32, self.longest)
    }
}
