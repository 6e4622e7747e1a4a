//! The blocks of some lengths, as steps tell of them.
ghost use Rattle.std.specs.Prelude.{◌≡◌};
ghost use Rattle.tlsf_held.specs.Merges as merges;
ghost use Rattle.tlsf_held.specs.Steps as told;

use crate::row::Row;
use crate::steps::Step;

/// The blocks of some lengths: how many are held, and what they came to so far.
#[derive(Clone, Copy, Debug, PartialEq, Eq)]
pub struct Band {
    /// The blocks that are held.
    pub held: usize,
    /// The most that were held at once, and the longest.
    pub row: Row,
}

// Whether a length is one of those from one on, below another.
fn is_between(from: u64, to: u64, len: u32) -> bool
    ensures { result ≡ merges.is_between from to len }
{
    let len = u64::from(len);
    from <= len && len < to
}

impl Band {
    ghost use Rattle.std.specs.Prelude.{◌≡◌, ◌+◌, ◌<◌, ◌≤◌, ◌^◌};
    ghost use Rattle.tlsf_held.specs.Steps.{band_step};

    // Notes a step, where the lengths are those from one on, below another.
    fn note(&mut self, from: u64, to: u64, step: Step)
        requires { self.old.held + 1 < 2 ^ 64 }
        ensures noted { self.new ≡ band_step from to self.old step }
        ensures few { self.new.held ≤ self.old.held + 1 }
    {
        match step {
            Step::Held(len) => {
                if is_between(from, to, len) {
                    self.held += 1;
                    self.row.longest = self.row.longest.max(len);
                }
            }
            Step::Freed(len) => {
                if is_between(from, to, len) {
                    self.held = self.held.saturating_sub(1);
                }
            }
            Step::Reached => self.row.most = self.row.most.max(self.held),
        }
    }
}

/// The most blocks of the lengths from one on, below another, that these steps hold at once, and the longest of them.
pub fn row_between(steps: &[Step], from: u64, to: u64) -> Row
    ensures { result ≡ told.row_between steps.now from to }
{
    let mut band = Band {
        held: 0,
        row: Row::new(),
    };
    for step in steps {
        band.note(from, to, *step);
    }
    band.row
}
