//! Workers that run their scripts at once.
ghost use Rattle.std.specs.Prelude.{◌≡◌, ℕ, ◌+◌, ◌<◌, List, [], ◌∷◌, ◌++◌, length, map, Option, None, vec_len, vec_capacity, IfOk};
ghost use Rattle.tlsf_heap.specs.declared.name.Name.{Name};
ghost use Rattle.tlsf_crew.specs.lanes.Yard.{IsYard, world_of};
ghost use Rattle.tlsf_crew.specs.lanes.Settle.{HasWorker};
ghost use Rattle.tlsf_crew.specs.model.World.{called};
ghost use Rattle.tlsf_crew.specs.replays.ReplaySteps.{replay_of};
ghost use Rattle.tlsf_crew.specs.scripts.Scripts.{last_call};
ghost use Rattle.tlsf_crew.specs.races.Race.{IsRace};
ghost use Rattle.tlsf_crew.specs.jobs.Parts.{AreScriptsFor};
ghost use Rattle.tlsf_crew.specs.races.Rooms.{HaveRecordRooms};
ghost use Rattle.tlsf_crew.specs.races.LaneTasks.{KeepRooms, HasFew, HasLastRoom, EachHasLastRoom, EachLastDrained};

use crate::jobs::gate::Gate;
use crate::jobs::outcome::Outcome;
use crate::jobs::running::run_scripts;
use crate::lanes::settle::settle;
use crate::replays::replay::reply_in_yard;
use crate::scripts::journal::Journal;
use crate::worker::worker::Worker;
use std::alloc::Global;
use std::marker::{PhantomData, Sync};
use std::sync::Wait;
use std::thread::Threads;
use tlsf_calls::{Call, Entry, Event, MOST_DRAINED};
use tlsf_post::NoMemory;

/// Runs each worker's script in a thread of its own, waits for all, and then drains each worker, in rising number. The
/// workers are a whole yard, and there is a script for each, of fewer than 2^32 calls. A script's `Made(k)` is the name
/// that its own call number k made.
///
/// `gate` is passed in the thread of worker j before its call of number i, by (j, i), and once after its last call.
///
/// - `race`: whatever the schedule of the threads, each record tells the answers of its worker's own heap. They are those to the
///   calls of its script, one after another, and to the last drain. Worker j took from worker i all that had waited for it, and
///   then all that i was answered to have posted to it. It took them in order and each once. Nothing waits in the end.
///
/// - `room`: all room is made before a thread starts. Each record has room for the calls of its script, for each post that waited
///   for its worker, and for each release of any script. It has room for the last drain too.
///
/// `NoMemory`, where a growth or the start of a thread was refused, gives no
/// outcome, and the workers are spent.
///
/// ```
/// // two workers, each to release a block of the other's: `theirs` of worker 1, `ours` of worker 0
/// let first = vec![in alloc; Call::Release { target: Target::Named(theirs) }]?;
/// let second = vec![in alloc; Call::Release { target: Target::Named(ours) }]?;
/// let outcome = race(rt, alloc, workers, vec![in alloc; first, second]?, &OpenGate)?;
/// let record = &outcome.records[0]; // the release: Posted; the take of `ours` from worker 1; the last drain: Drained(1)
/// ```
pub fn race<const SLI: u32, R: Threads + Wait + Sync, G: Gate>(
    rt: &R,
    alloc: Global,
    workers: Vec<Worker<SLI>>,
    scripts: Vec<Vec<Call>>,
    gate: &G,
) -> Result<Outcome<SLI>, NoMemory>
    requires yard { IsYard workers.items }
    requires scripts { AreScriptsFor (vec_len workers) scripts }
    ensures race { IfOk result (λ o. IsRace (world_of workers.entry.items) (map (λ s. s.items) scripts.items)
        (map (λ r. r.items) o.records.items) (world_of o.workers.items)) }
    ensures yard { IfOk result (λ o. IsYard o.workers.items) }
    ensures room { IfOk result (λ o. HaveRecordRooms (world_of workers.entry.items) (map (λ s. s.items) scripts.items) o.records.items) }
{
    let mut workers = workers;
    settle(&mut workers);
    let mut outcome = run_scripts(rt, alloc, workers, scripts, gate, PhantomData)?;
    settle(&mut outcome.workers);
    drain_all(alloc, &mut outcome.workers, &mut outcome.records);
    Ok(outcome)
}

/// Drains each worker, in rising number.
fn drain_all<const SLI: u32>(alloc: Global, workers: &mut [Worker<SLI>], records: &mut [Vec<Entry>])
    requires yard { IsYard workers.old }
    requires count { length records.old ≡ length workers.old }
    requires few { (j : ℕ) → HasFew workers.old j }
    requires room { EachHasLastRoom workers.old records.old }
    ensures drained { EachLastDrained workers.old (map (λ r. r.items) records.old) (map (λ r. r.items) records.new) workers.new (length workers.old) }
    ensures rooms { KeepRooms records.old records.new }
{
    for j in 0..workers.len() {
        drain_one(alloc, workers, j as u32, &mut records[j]);
    }
}

/// Takes all that waits for a worker.
fn drain_one<const SLI: u32>(
    alloc: Global,
    workers: &mut [Worker<SLI>],
    at: u32,
    entries: &mut Vec<Entry>,
)
    requires has { HasWorker workers.old at }
    requires few { HasFew workers.old at }
    requires room { HasLastRoom workers.old at entries.old }
    ensures yard { IsYard workers.new }
    ensures told { (made : List (Option Name)) → replay_of (made ++ None ∷ []) entries.new.items workers.new
        ≡ called (replay_of made entries.old.items workers.old) at last_call }
    ensures capacity { vec_capacity entries.new ≡ vec_capacity entries.old }
{
    let event = Event {
        worker: at,
        call: Call::Drain { most: MOST_DRAINED },
    };
    let mut journal = Journal::resume(alloc, entries, [0; 8]);
    let reply = reply_in_yard(workers, &event, None, &mut journal);
    journal.entries.push_reserved(Entry {
        worker: at,
        call: event.call,
        reply,
    });
    *entries = journal.entries;
}
