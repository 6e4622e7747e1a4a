//! Room for the entries of a replay, counted before it.
ghost use Rattle.std.specs.Prelude.{◌≡◌, ◌+◌, ◌*◌, ◌≤◌, length};
ghost use Rattle.tlsf_crew.specs.lanes.Ready.{count_of, ready_from, ready_in};
ghost use Rattle.tlsf_crew.specs.model.Sums.{sum_below};
ghost use Rattle.tlsf_crew.specs.scripts.EntryRoom.{releases_in};
ghost use Rattle.tlsf_crew.specs.lanes.LaneWorkers.{lane_from};

use crate::worker::lanes::Lanes;
use crate::worker::worker::Worker;
use tlsf_calls::{Call, Event};

/// Room for all entries that events can make: one for each event, and one for each post that a release makes. There is one for each
/// post that is ready, too.
pub(crate) fn room_for<const SLI: u32>(workers: &[Worker<SLI>], events: &[Event]) -> usize
    requires { length workers.now ≤ 8 }
    ensures { result ≡ length events.now + releases_in events.now + ready_in workers.now }
{
    let releases = events
        .iter()
        .filter(|event| matches!(event.call, Call::Release { .. }))
        .count();
    events.len() + releases + count_ready(workers)
}

/// How many posts are ready in the yard.
fn count_ready<const SLI: u32>(workers: &[Worker<SLI>]) -> usize
    requires { length workers.now ≤ 8 }
    ensures count { result ≡ ready_in workers.now }
    ensures most { result ≤ 64 * u32.MAX }
{
    let mut count = 0;
    for worker in workers.iter() {
        count += count_for(worker, workers.len());
    }
    count
}

/// How many posts are ready for a worker from the workers below n.
fn count_for<const SLI: u32>(worker: &Worker<SLI>, n: usize) -> usize
    requires { n ≤ 8 }
    ensures count { result ≡ sum_below n (ready_from worker.now) }
    ensures most { result ≤ 8 * u32.MAX }
{
    let mut count = 0;
    for i in 0..n {
        count += count_from(&worker.ports, i) as usize;
    }
    count
}

/// How many posts are ready in the lane from worker i.
pub(crate) fn count_from(lanes: &Lanes, i: usize) -> u32
    ensures { result ≡ count_of (lane_from lanes.now i) }
{
    match lanes.takes.get(i) {
        Some(Some(end)) => end.count_ready(),
        Some(None) => 0,
        None => 0,
    }
}
