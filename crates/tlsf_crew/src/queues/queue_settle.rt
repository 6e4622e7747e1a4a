//! Settling of queues: each owner learns all that was put into its queue.
ghost use Rattle.std.specs.Prelude.{◌≡◌, ℕ, ◌+◌, ◌++◌, ◌<◌, ◌≤◌, [], Some, slice_get, length, vec_len, vec_capacity, OnOk, OnErr};
ghost use Rattle.std.specs.Option.{option_to_list};
ghost use Rattle.tlsf_post.specs.Mailboxes.{IsWhole, AllBeside};
ghost use Rattle.tlsf_crew.specs.queues.QueueWorkers.{queue_end_to};
ghost use Rattle.tlsf_crew.specs.queues.QueueYard.{IsQueueYard, queue_world_of};
ghost use Rattle.tlsf_crew.specs.queues.QueueSettle.{AllKnown, GaveUpEnd, Gathered, HasQueueWorker, QueueSettled, EachQueueSettled, StaysPut};
ghost use Rattle.tlsf_crew.specs.declared.worker.worker.Worker.{Worker};
ghost use Rattle.tlsf_crew.specs.declared.queues.queues.Queues.{Queues};

use crate::queues::queue_opening::give_ends;
use crate::queues::queues::QueueWorker;
use std::alloc::Global;
use tlsf_post::{NoMemory, PosterEnd};

/// Takes an end out of its slot, if there is one.
fn take_end<const SLI: u32>(worker: &mut QueueWorker<SLI>, j: usize) -> Option<PosterEnd>
    requires { j < vec_len worker.old.ports.posts }
    ensures end { result ≡ queue_end_to worker.old j }
    ensures gave { GaveUpEnd worker.old worker.new j }
{
    worker.ports.posts[j].take()
}

/// Takes an end out of its slot, if there is one, and adds it to others.
fn gather_end<const SLI: u32>(worker: &mut QueueWorker<SLI>, j: usize, posters: &mut Vec<PosterEnd>)
    requires slot { j < vec_len worker.old.ports.posts }
    requires room { vec_len posters.old < vec_capacity posters.old }
    ensures ends { posters.new.items ≡ posters.old.items ++ option_to_list (queue_end_to worker.old j) }
    ensures gave { GaveUpEnd worker.old worker.new j }
    ensures few { vec_len posters.new ≤ vec_len posters.old + 1 }
    ensures capacity { vec_capacity posters.new ≡ vec_capacity posters.old }
{
    if let Some(end) = take_end(worker, j) {
        posters.push_reserved(end);
    }
}

/// Takes each other worker's end to queue `j`, by rising number.
fn gather_all<const SLI: u32>(
    workers: &mut [QueueWorker<SLI>],
    j: usize,
    posters: &mut Vec<PosterEnd>,
)
    requires has { HasQueueWorker workers.old j }
    requires room { (posters.old.items ≡ []) × (length workers.old ≤ vec_capacity posters.old) }
    ensures gathered { Gathered workers.old j (length workers.old) workers.new posters.new.items }
    ensures capacity { vec_capacity posters.new ≡ vec_capacity posters.old }
{
    for i in 0..workers.len() {
        if i != j {
            gather_end(&mut workers[i], j, posters);
        }
    }
}

/// Tells the owner all that was put into its queue, with all ends to it at hand.
fn owner_beside<const SLI: u32>(worker: &mut QueueWorker<SLI>, posters: &mut Vec<PosterEnd>)
    requires { IsWhole worker.old.ports.own posters.old.items }
    ensures beside { AllBeside worker.old.ports.own posters.old.items worker.new.ports.own posters.new.items }
    ensures same { (worker.new.heap ≡ worker.old.heap) × (worker.new.id ≡ worker.old.id) × (worker.new.ports.posts ≡ worker.old.ports.posts) }
    ensures capacity { vec_capacity posters.new ≡ vec_capacity posters.old }
{
    worker.ports.own.beside(posters);
}

/// Tells the owner of queue `j` all that was put into it. `posters` has room for the ends meanwhile.
fn settle_one_queue<const SLI: u32>(
    workers: &mut [QueueWorker<SLI>],
    j: usize,
    posters: &mut Vec<PosterEnd>,
)
    requires has { HasQueueWorker workers.old j }
    requires room { length workers.old ≤ vec_capacity posters.old }
    ensures settled { QueueSettled workers.old j workers.new }
    ensures capacity { vec_capacity posters.new ≡ vec_capacity posters.old }
{
    posters.clear();
    gather_all(workers, j, posters);
    owner_beside(&mut workers[j], posters);
    let k = workers.len();
    give_ends(workers, j, k, posters);
}

/// Tells each owner all that was put into its queue. `posters` has room for the ends to one queue meanwhile.
pub(crate) fn settle_each_queue<const SLI: u32>(
    workers: &mut [QueueWorker<SLI>],
    posters: &mut Vec<PosterEnd>,
)
    requires yard { IsQueueYard workers.old }
    requires room { length workers.old ≤ vec_capacity posters.old }
    ensures settled { EachQueueSettled workers.old (length workers.old) workers.new }
    ensures capacity { vec_capacity posters.new ≡ vec_capacity posters.old }
{
    for j in 0..workers.len() {
        settle_one_queue(workers, j, posters);
    }
}

/// Settles each queue of a whole yard: its owner learns all that was put into it. So the `None` of a later take says that all that
/// was put before the settling was taken. A later drain that takes fewer than it may says it too.
///
/// - `known`: each owner knows, of each other worker, all that this has ever put into its queue.
/// - `stays`: what each worker has put into each queue and taken out of its own stays the same. Its heap and its number stay the
///   same too.
/// - `world`: what the yard shows stays the same. No heap changes, and in each queue the same posts wait.
///
/// Refused as `NoMemory` where room for the ends to one queue was refused. Nothing has changed then.
///
/// ```
/// workers[1].post(rt, name)?;            // the name of a block of worker 0
/// settle_queues(alloc, &mut workers)?;   // worker 0 knows of it
/// let took = workers[0].take(rt);        // Some(..): so the take answers it, and releases the block
/// ```
pub fn settle_queues<const SLI: u32>(
    alloc: Global,
    workers: &mut [QueueWorker<SLI>],
) -> Result<(), NoMemory>
    requires { IsQueueYard workers.old }
    ensures known { OnOk result (AllKnown workers.new) }
    ensures stays { (i : ℕ) (a v : Worker SLI Queues) → slice_get workers.old i ≡ Some a → slice_get workers.new i ≡ Some v → StaysPut a v }
    ensures yard { IsQueueYard workers.new }
    ensures count { length workers.new ≡ length workers.old }
    ensures world { queue_world_of workers.new ≡ queue_world_of workers.old }
    ensures no_memory { OnErr result (workers.new ≡ workers.old) }
{
    let mut posters = Vec::with_capacity(alloc, workers.len())?;
    settle_each_queue(workers, &mut posters);
    Ok(())
}
