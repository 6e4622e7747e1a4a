//! Events, one after another.
ghost use Rattle.std.specs.Prelude.{◌≡◌, ◌≢◌, ℕ, ◌+◌, ◌<◌, ◌≤◌, All, length, List, Option, Some, vec_len, vec_capacity, IfOk, OnOk, OnErr};
ghost use Rattle.tlsf_heap.specs.declared.name.Name.{Name};
ghost use Rattle.tlsf_crew.specs.model.Sums.{sum_below};
ghost use Rattle.tlsf_crew.specs.scripts.EntryRoom.{entry_room};
ghost use Rattle.tlsf_crew.specs.lanes.Yard.{IsYard, shown_in, waits_in, world_of};
ghost use Rattle.tlsf_crew.specs.model.World.{after, replies, replies_behind};
ghost use Rattle.tlsf_crew.specs.model.Targets.{target_name};
ghost use Rattle.tlsf_crew.specs.lanes.Settle.{HasWorker, KeepsWorld, LaneSettled};
ghost use Rattle.tlsf_crew.specs.replays.ReplaySteps.{replay_of, Concerns, AreLimits, IsReplied};

use crate::lanes::pairs::settle_lane;
use crate::lanes::settle::{settle, settle_column};
use crate::scripts::executor::{answer, reply_to};
use crate::scripts::journal::Journal;
use crate::scripts::own_replies::target_name;
use crate::scripts::room::room_for;
use crate::scripts::scripted::Scripted;
use crate::worker::lanes::Lanes;
use crate::worker::ports::NoRuntime;
use crate::worker::worker::Worker;
use std::alloc::Global;
use tlsf_calls::{Call, CrewRefusal, Entry, Event, Reply};
use tlsf_heap::Name;
use tlsf_post::NoMemory;

/// Settles the lane from a worker to that of a name's heap, where there is one.
fn settle_named<const SLI: u32>(workers: &mut [Worker<SLI>], at: usize, name: Option<Name>)
    requires { HasWorker workers.old at }
    ensures settled { (k : Name) → name ≡ Some k → k.heap < length workers.old → at ≢ k.heap → LaneSettled workers.old workers.new at k.heap }
    ensures keeps { KeepsWorld workers.old workers.new }
{
    let Some(name) = name else {
        return;
    };
    let to = name.heap as usize;
    if at != to && to < workers.len() {
        settle_lane(workers, at, to);
    }
}

/// Settles the lanes that an event concerns whose target means this name. Answers how many posts the worker may then take from each other one:
/// all that wait, where it takes any.
#[inline(always)]
fn settle_for<const SLI: u32>(
    workers: &mut [Worker<SLI>],
    event: &Event,
    name: Option<Name>,
) -> [u64; 8]
    requires { HasWorker workers.old event.now.worker }
    ensures settled { (made : List (Option Name)) → target_name made event.now.call ≡ name → (i j : ℕ) → i < length workers.old → j < length workers.old → i ≢ j → Concerns made event.now i j
        → LaneSettled workers.old workers.new i j }
    ensures keeps { KeepsWorld workers.old workers.new }
    ensures limits { AreLimits workers.new event.now result }
{
    let at = event.worker as usize;
    match event.call {
        Call::Release { .. } => {
            settle_named(workers, at, name);
            [0; 8]
        }
        Call::Take { .. } | Call::Drain { .. } => {
            settle_column(workers, at);
            <Lanes as Scripted<NoRuntime>>::limits(&workers[at].ports, &[0; 8])
        }
        _ => [0; 8],
    }
}

/// Makes the call of an event by a worker of the yard, whose target means this name, with the lanes settled before and after.
/// A drain writes its takes; the event's own entry is still to come.
pub(crate) fn reply_in_yard<const SLI: u32>(
    workers: &mut [Worker<SLI>],
    event: &Event,
    name: Option<Name>,
    journal: &mut Journal,
) -> Reply
    requires has { HasWorker workers.old event.now.worker }
    requires room { vec_len journal.old.entries + sum_below 8 (λ i. length (waits_in workers.old i event.now.worker)) ≤ vec_capacity journal.old.entries }
    requires meant { (made : List (Option Name)) × (target_name made event.now.call ≡ name) }
    ensures replied { (made : List (Option Name)) → target_name made event.now.call ≡ name → IsReplied (replay_of made journal.old.entries.items workers.old) event.now journal.new.entries.items workers.new result }
    ensures others { (x : ℕ) → x ≢ event.now.worker → shown_in workers.new x ≡ shown_in workers.old x }
    ensures capacity { vec_capacity journal.new.entries ≡ vec_capacity journal.old.entries }
{
    journal.limits = settle_for(workers, event, name);
    let worker = &mut workers[event.worker as usize];
    let reply = reply_to(worker, &NoRuntime, journal, &event.call, name);
    settle_for(workers, event, name);
    reply
}

/// Runs one event.
fn run_event<const SLI: u32>(
    workers: &mut [Worker<SLI>],
    event: &Event,
    made: &mut Vec<Option<Name>>,
    journal: &mut Journal,
)
    requires yard { IsYard workers.old }
    requires made { vec_len made.old < vec_capacity made.old }
    requires takes { vec_len journal.old.entries + sum_below 8 (λ i. length (waits_in workers.old i event.now.worker)) ≤ vec_capacity journal.old.entries }
    requires room { length (after (replay_of made.old.items journal.old.entries.items workers.old) event.now).entries ≤ vec_capacity journal.old.entries }
    ensures yard { IsYard workers.new }
    ensures capacity { (vec_capacity made.new ≡ vec_capacity made.old) × (vec_capacity journal.new.entries ≡ vec_capacity journal.old.entries) }
    ensures others { (x : ℕ) → x ≢ event.now.worker → shown_in workers.new x ≡ shown_in workers.old x }
    ensures made { vec_len made.new ≡ vec_len made.old + 1 }
    ensures after { replay_of made.new.items journal.new.entries.items workers.new ≡ after (replay_of made.old.items journal.old.entries.items workers.old) event.now }
{
    if (event.worker as usize) >= workers.len() {
        let stranger = Reply::Refused(CrewRefusal::Stranger);
        answer(event, stranger, made, &mut journal.entries);
        return;
    }
    let name = target_name(&event.call, made);
    let reply = reply_in_yard(workers, event, name, journal);
    answer(event, reply, made, &mut journal.entries);
}

/// Runs events in order on a whole yard, with every end in hand, and answers an entry for each. A drain gives before
/// its own entry one for each post that it takes.
///
/// Before and after each release of another's name and each take the lane concerned is settled. So a lane is full
/// exactly where its capacity of posts waits, and empty exactly where none does.
///
/// Where each target was made by an earlier event and not yet released or posted, no answer is `Stale`. This is a law of its own
/// (`tlsf_yard_laws::no_fair_run_is_stale`).
///
/// - `room`: the room for all entries is made first. There is one for each event, for each release among them and for each post
///   that waits at the start. Where it answers `NoMemory`, no event has run.
/// - `others`: no word of a heap is read or written whose worker makes no event.
pub fn replay_events<const SLI: u32>(
    alloc: Global,
    workers: &mut [Worker<SLI>],
    events: &[Event],
) -> Result<Vec<Entry>, NoMemory>
    requires { IsYard workers.old }
    ensures yard { IsYard workers.new }
    ensures entries { IfOk result (λ entries. entries.items ≡ (replies (world_of workers.old) events.now).entries) }
    ensures world { OnOk result (world_of workers.new ≡ (replies (world_of workers.old) events.now).world) }
    ensures no_memory { OnErr result (world_of workers.new ≡ world_of workers.old) }
    ensures others { (x : ℕ) → All (λ event. event.worker ≢ x) events.now → shown_in workers.new x ≡ shown_in workers.old x }

    // This much memory is asked for, and no more.
    ensures room { IfOk result (λ entries. vec_capacity entries ≡ entry_room (world_of workers.old) events.now) }
{
    let mut made = Vec::new(alloc);
    replay_behind(alloc, workers, &mut made, events)
}

/// Runs events in order after others, whose names stand in `made`, by their numbers. Answers the entries of these events alone, and
/// adds the names that they made. So a long list of events can be run part by part, with few entries held.
///
/// Lanes are settled as [`replay_events`] settles them. After `NoMemory` no event has run, and `made` has the names that it had.
/// A heap whose worker makes no event isn't touched (`others`).
///
/// ```
/// let mut made = Vec::new(alloc);
/// let first = replay_behind(alloc, &mut workers, &mut made, &events[..100])?;
/// let rest = replay_behind(alloc, &mut workers, &mut made, &events[100..])?;
/// // the entries of both are those that `replay_events` gives for all events
/// ```
pub fn replay_behind<const SLI: u32>(
    alloc: Global,
    workers: &mut [Worker<SLI>],
    made: &mut Vec<Option<Name>>,
    events: &[Event],
) -> Result<Vec<Entry>, NoMemory>
    requires { IsYard workers.old }
    ensures yard { IsYard workers.new }
    ensures entries { IfOk result (λ entries. entries.items ≡ (replies_behind (world_of workers.old) made.old.items events.now).entries) }
    ensures made { OnOk result (made.new.items ≡ (replies_behind (world_of workers.old) made.old.items events.now).made) }
    ensures world { OnOk result (world_of workers.new ≡ (replies_behind (world_of workers.old) made.old.items events.now).world) }
    ensures no_memory { OnErr result ((world_of workers.new ≡ world_of workers.old) × (made.new.items ≡ made.old.items)) }
    ensures others { (x : ℕ) → All (λ event. event.worker ≢ x) events.now → shown_in workers.new x ≡ shown_in workers.old x }
    ensures room { IfOk result (λ entries. vec_capacity entries ≡ entry_room (world_of workers.old) events.now) }
{
    settle(workers);
    let room = room_for(workers, events);
    made.reserve(events.len())?;
    let mut journal = Journal {
        limits: [0; 8],
        entries: Vec::with_capacity(alloc, room)?,
    };
    for event in events.iter() {
        run_event(workers, event, made, &mut journal);
    }
    Ok(journal.entries)
}
