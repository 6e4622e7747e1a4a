//! Facts about the calls of a script over queues.
ghost use Rattle.std.specs.Prelude.{◌+◌};
ghost use Rattle.tlsf_crew.specs.scripts.QueueMoves.{QueueStepped, queue_promise};

use crate::queues::queues::Queues;
use crate::scripts::scripted::Scripted;
use crate::worker::opening::MOST_CAPACITY;
use std::sync::Wait;

impl<R: Wait> Scripted<R> for Queues {
    ghost promise = { queue_promise };

    ghost steps = { λ sli n s call made t reply. QueueStepped n s call made t reply };

    /// As many as the queue holds, and one for each release of any script: no more can come.
    fn limits(&self, releases: &[u32; 8]) -> [u64; 8] {
        let mut all = MOST_CAPACITY as u64;
        for i in 0..8 {
            all += releases[i] as u64;
        }
        [all, 0, 0, 0, 0, 0, 0, 0]
    }

    fn laws() {}
}
