ghost use Rattle.std.specs.Prelude.{◌≡◌, length, map};
ghost use Rattle.tlsf_crew.specs.lanes.Yard.{IsYard};
ghost use Rattle.tlsf_crew.specs.lanes.LaneWorkers.{lane_memory};
ghost use Rattle.tlsf_crew.specs.lanes.Settle.{EachLaneSettled, HasWorker, KeepsWorld};
ghost use Rattle.tlsf_crew.specs.lanes.LaneSteps.{ColumnSettled};

use crate::lanes::pairs::settle_lane;
use crate::worker::worker::Worker;

/// Settles each lane of a whole yard: its two ends tell each other what they did since the last time. All that was
/// posted then waits at the end that takes, and the end that posts knows each free slot.
///
/// - `settled`: for each lane, the posts that were taken and then those that wait are those that had waited and then those
///   that were sent. No post is lost, doubled or overtaken.
/// - `keeps`: what the yard shows stays the same. No heap changes, and in each lane the same posts wait. No word of a heap is read or
///   written, and so no payload.
/// - `stays`: it takes no memory, so each worker's heap, lists of ends and lanes stay where they lie.
///
/// ```
/// let freed = workers[1].release(name); // Ok(Released::Posted): the name of a block of worker 0
/// settle(&mut workers);                 // that post is known to be ready for worker 0
/// let took = workers[0].take(1);        // Ok(Some(..)): so the take answers it, and releases the block
/// ```
pub fn settle<const SLI: u32>(workers: &mut [Worker<SLI>])
    requires { IsYard workers.old }
    ensures settled { EachLaneSettled workers.old workers.new }
    ensures keeps { KeepsWorld workers.old workers.new }
    ensures stays { map lane_memory workers.new ≡ map lane_memory workers.old }
{
    for j in 0..workers.len() {
        settle_column(workers, j);
    }
}

/// Settles the lanes to one worker.
pub(crate) fn settle_column<const SLI: u32>(workers: &mut [Worker<SLI>], j: usize)
    requires { HasWorker workers.old j }
    ensures settled { ColumnSettled workers.old workers.new (length workers.old) j }
    ensures keeps { KeepsWorld workers.old workers.new }
    ensures stays { map lane_memory workers.new ≡ map lane_memory workers.old }
{
    for i in 0..workers.len() {
        if i != j {
            settle_lane(workers, i, j);
        }
    }
}
