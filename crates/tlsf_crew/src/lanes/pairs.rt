// One lane, both ends in hand.
ghost use Rattle.std.specs.Prelude.{◌<◌, length, Some};
ghost use Rattle.tlsf_crew.specs.lanes.Yard.{HasYardLane};
ghost use Rattle.tlsf_crew.specs.lanes.LaneSteps.{AreTwo, HasLane, PairSettled, OnlyLaneSettled};

use crate::worker::worker::Worker;
use tlsf_post::{Post, beside};

/// The lane from one worker to another.
fn settle_pair<const SLI: u32>(
    poster: &mut Worker<SLI>,
    taker: &mut Worker<SLI>,
    i: usize,
    j: usize,
)
    requires { HasLane i j poster.old taker.old }
    ensures { PairSettled i j poster.old taker.old poster.new taker.new }
{
    let Some(post) = poster.ports.posts[j].as_mut() else {
        unreachable!()
    };
    let Some(take) = taker.ports.takes[i].as_mut() else {
        unreachable!()
    };
    beside(post, take);
}

/// The lane from worker i to worker j.
pub(crate) fn settle_lane<const SLI: u32>(workers: &mut [Worker<SLI>], i: usize, j: usize)
    requires two { AreTwo (length workers.old) i j }
    requires lane { HasYardLane workers.old i j }
    ensures { OnlyLaneSettled workers.old i j workers.new }
{
    if i < j {
        let (low, high) = workers.split_at_mut(j);
        settle_pair(&mut low[i], &mut high[0], i, j);
    } else {
        let (low, high) = workers.split_at_mut(i);
        settle_pair(&mut high[0], &mut low[j], i, j);
    }
}
