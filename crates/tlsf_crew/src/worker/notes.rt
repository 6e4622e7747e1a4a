//! Where a drain notes what it takes.
ghost use Rattle.std.specs.Prelude.{◌≡◌, ◌<◌, ◌≤◌, ℕ, Option, ⊤};
ghost use Rattle.tlsf_calls.specs.declared.took.Took.{Took};
ghost use Rattle.tlsf_crew.specs.worker.Slices.{MayTake};

use tlsf_calls::Took;

/// Notes of the posts that a drain takes. A drain takes no post that they don't admit.
pub(crate) trait Notes {
    // One more post may be taken from that source.
    ghost admitted: { Self → ℕ → Type 0 };

    // There is room for a note of each post that may be taken.
    ghost has_room: { Self → Type 0 };

    // How many notes there is room for in all.
    ghost most: { Self → ℕ };

    // The notes after the worker of a number took a post from a source, of this sender where a source is not one worker's.
    ghost noted: { Self → ℕ → ℕ → Option ℕ → Took → Self → Type 0 };

    /// How many of these wanted posts may be taken from that source, one after another. None where not one more may.
    fn admits(&self, source: usize, wanted: usize) -> usize
        requires { 0 < wanted }
        ensures yes { MayTake admitted noted self.now source result }
        ensures few { result ≤ wanted }
        ensures no { result ≡ 0 → ¬ (admitted self.now source) };

    /// Notes what worker `at` took from a source, of this sender where a source is not one worker's.
    fn note(&mut self, at: u32, source: usize, sender: Option<u32>, took: Took)
        requires admitted { admitted self.old source }
        requires room { has_room self.old }
        ensures noted { noted self.old at source sender took self.new }
        ensures room { has_room self.new }
        ensures most { most self.new ≡ most self.old };
}

/// No notes: each post is admitted, and none is noted.
#[derive(Drop)]
pub(crate) struct NoNotes;

impl Notes for NoNotes {
    ghost admitted = { λ notes source. ⊤ };

    ghost has_room = { λ notes. ⊤ };

    ghost most = { λ notes. 0 };

    ghost noted = { λ old at source sender took new. ⊤ };

    fn admits(&self, _source: usize, wanted: usize) -> usize {
        wanted
    }

    fn note(&mut self, _at: u32, _source: usize, _sender: Option<u32>, _took: Took) {}
}
