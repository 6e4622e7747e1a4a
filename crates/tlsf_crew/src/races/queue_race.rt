//! Workers over queues that run their scripts at once.
ghost use Rattle.std.specs.Prelude.{◌≡◌, ℕ, ◌<◌, ◌≤◌, length, map, vec_len, vec_capacity, IfOk, All};
ghost use Rattle.tlsf_crew.specs.queues.QueueYard.{IsQueueYard, queue_world_of};
ghost use Rattle.tlsf_crew.specs.races.QueueRace.{IsQueueRace};
ghost use Rattle.tlsf_crew.specs.queues.QueueWorkers.{KnowsQueueYard};
ghost use Rattle.tlsf_crew.specs.races.LaneTasks.{KeepRooms};
ghost use Rattle.tlsf_crew.specs.jobs.Parts.{AreScriptsFor};
ghost use Rattle.tlsf_crew.specs.races.Rooms.{HaveQueueRecordRooms};
ghost use Rattle.tlsf_crew.specs.races.QueueTasks.{QueueLastDrained, SettledAndDrained, HasPlace, HavePlaces, KnowsSomeYard, EachQueueLastDrained};

use crate::jobs::gate::Gate;
use crate::jobs::outcome::QueueOutcome;
use crate::jobs::running::run_scripts;
use crate::queues::queue_settle::settle_each_queue;
use crate::queues::queues::QueueWorker;
use crate::scripts::journal::Journal;
use crate::worker::worker::{AT_ONCE, NO_POST, drain_source};
use std::alloc::Global;
use std::marker::{PhantomData, Sync};
use std::sync::Wait;
use std::thread::Threads;
use tlsf_calls::{Call, Entry, MOST_DRAINED, Reply};
use tlsf_post::{NoMemory, PosterEnd};

/// Runs each worker's script in a thread of its own over queues, waits for all, and then drains each worker, in rising
/// number. The workers are a whole yard, and there is a script for each, of fewer than 2^32 calls. A script's `Made(k)` is
/// the name that its own call number k made. A `Take` is answered Stranger, since a queue has no single poster.
///
/// `gate` is passed in the thread of worker j before its call of number i, by (j, i), and once after its last call.
///
/// - `race`: whatever the schedule of the threads, each record tells the answers of its worker's own heap. They are those to the
///   calls of its script, one after another, and to the last drain. Worker j took of worker i all that had waited of it, and then
///   all that i was answered to have posted to j. It took them in order and each once. Nothing waits in the end.
///
/// - `room`: all room is made before a thread starts. Each record has room for the calls of its script, for each post that its
///   queue may hold, and for each release of any script. It has room for the last drain too.
///
/// `NoMemory`, where a growth or the start of a thread was refused, gives no
/// outcome, and the workers are spent.
///
/// ```
/// // two workers, each to release a block of the other's: `theirs` of worker 1, `ours` of worker 0
/// let first = vec![in alloc; Call::Release { target: Target::Named(theirs) }]?;
/// let second = vec![in alloc; Call::Release { target: Target::Named(ours) }]?;
/// let outcome = race_queues(rt, alloc, workers, vec![in alloc; first, second]?, &OpenGate)?;
/// let record = &outcome.records[0]; // the release: Posted; the take of `ours` from worker 1; the last drain: Drained(1)
/// ```
pub fn race_queues<const SLI: u32, R: Threads + Wait + Sync, G: Gate>(
    rt: &R,
    alloc: Global,
    workers: Vec<QueueWorker<SLI>>,
    scripts: Vec<Vec<Call>>,
    gate: &G,
) -> Result<QueueOutcome<SLI>, NoMemory>
    requires yard { IsQueueYard workers.items }
    requires scripts { AreScriptsFor (vec_len workers) scripts }
    ensures race { IfOk result (λ o. IsQueueRace (queue_world_of workers.entry.items) (map (λ s. s.items) scripts.items)
        (map (λ r. r.items) o.records.items) (queue_world_of o.workers.items)) }
    ensures yard { IfOk result (λ o. IsQueueYard o.workers.items) }
    ensures room { IfOk result (λ o. HaveQueueRecordRooms (map (λ s. s.items) scripts.items) o.records.items) }
{
    let mut workers = workers;
    let mut posters = Vec::with_capacity(alloc, workers.len())?;
    settle_each_queue(&mut workers, &mut posters);
    let mut outcome = run_scripts(rt, alloc, workers, scripts, gate, PhantomData)?;
    finish(
        rt,
        alloc,
        &mut outcome.workers,
        &mut outcome.records,
        &mut posters,
    );
    Ok(outcome)
}

/// Settles the queues, drains each worker, and settles them again.
fn finish<const SLI: u32, R: Wait>(
    rt: &R,
    alloc: Global,
    workers: &mut [QueueWorker<SLI>],
    records: &mut [Vec<Entry>],
    posters: &mut Vec<PosterEnd>,
)
    requires yard { IsQueueYard workers.old }
    requires records { HavePlaces (length workers.old) records.old }
    requires room { length workers.old ≤ vec_capacity posters.old }
    ensures rooms { KeepRooms records.old records.new }
    ensures finished { SettledAndDrained workers.old (map (λ r. r.items) records.old) (map (λ r. r.items) records.new) workers.new }
{
    settle_each_queue(workers, posters);
    drain_all(rt, alloc, workers, records);
    settle_each_queue(workers, posters);
}

/// Drains each worker, in rising number.
fn drain_all<const SLI: u32, R: Wait>(
    rt: &R,
    alloc: Global,
    workers: &mut [QueueWorker<SLI>],
    records: &mut [Vec<Entry>],
)
    requires yard { All KnowsSomeYard workers.old }
    requires records { HavePlaces (length workers.old) records.old }
    ensures rooms { KeepRooms records.old records.new }
    ensures drained { EachQueueLastDrained workers.old (map (λ r. r.items) records.old) (map (λ r. r.items) records.new) workers.new (length workers.old) }
{
    for j in 0..workers.len() {
        drain_one(rt, alloc, &mut workers[j], &mut records[j]);
    }
}

/// Takes all that waits for a worker. Nobody posts any more, and there is room for an entry of each post. So the queue is empty at
/// the end, and the drain doesn't wait for long.
fn drain_one<const SLI: u32, R: Wait>(
    rt: &R,
    alloc: Global,
    worker: &mut QueueWorker<SLI>,
    entries: &mut Vec<Entry>,
)
    requires yard { KnowsSomeYard worker.old }
    requires place { HasPlace entries.old }
    ensures drained { (n : ℕ) → KnowsQueueYard n worker.old → QueueLastDrained n worker.old worker.new entries.old.items entries.new.items }
    ensures capacity { vec_capacity entries.new ≡ vec_capacity entries.old }
{
    let room = (entries.capacity() - entries.len() - 1) as u64;
    // Fewer than it asks for, so that it goes on until its queue is empty.
    let most = room.min(MOST_DRAINED as u64 - 1);
    let mut journal = Journal::resume(alloc, entries, [most, 0, 0, 0, 0, 0, 0, 0]);
    let mut places = [NO_POST; AT_ONCE];
    let drained = drain_source(worker, rt, 0, MOST_DRAINED, &mut places, &mut journal);
    journal.entries.push_reserved(Entry {
        worker: worker.id,
        call: Call::Drain { most: MOST_DRAINED },
        reply: Reply::Drained(drained.taken),
    });
    *entries = journal.entries;
}
