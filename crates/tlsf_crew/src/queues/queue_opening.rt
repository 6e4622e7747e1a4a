//! How a yard over queues is opened.
ghost use Rattle.std.specs.Prelude.{◌≡◌, ℕ, ◌<◌, ◌≤◌, Some, length, map, vec_len, vec_capacity, slice_set, IfOk};
ghost use Rattle.tlsf_class.specs.Classes.{IsLevel};
ghost use Rattle.tlsf_post.specs.Mailboxes.{number_of, below_but};
ghost use Rattle.tlsf_crew.specs.worker.Sizes.{AreSizes, RefusesSizes};
ghost use Rattle.tlsf_crew.specs.model.Opening.{opened_world};
ghost use Rattle.tlsf_crew.specs.queues.QueueYard.{IsQueueYard, queue_world_of};
ghost use Rattle.tlsf_crew.specs.queues.QueueOpening.{AreFreshQueues, AreGiven, AreUngiven, GaveEnds, HaveSlotsFor};

use crate::queues::queues::{QueueWorker, Queues};
use crate::worker::opening::{check_sizes, no_ends, open_worker};
use std::alloc::Global;
use tlsf_heap::OpenFault;
use tlsf_post::{NoMemory, PosterEnd, mailbox};

/// Opens a yard over queues of level 4 or 5, of `n` workers, 1 to 8, numbered from 0. Each owns a heap of its number over `words`
/// words, 4 to 2^20 at level 4 and to 2^24 at level 5. Each owns a queue too, into which all others post, of up to `capacity`
/// posts, 1 to 1,024.
///
/// Refused as `BadSize` where a number is out of range; otherwise as `NoMemory` where memory was not granted.
///
/// - `fresh`: nothing was put into a queue or taken out of one.
/// - `count`: there are `n` workers, so a number below `n` is the index of one.
///
/// ```
/// let mut workers = open_queue_yard::<4>(alloc, 3, 1024, 16)?; // three heaps of 8 KiB, and three queues of up to 16 posts
/// let name = workers[0].allocate(100)?;                        // a block of worker 0
/// workers[1].post(rt, name)?;                                  // its name waits in the queue of worker 0
/// ```
pub fn open_queue_yard<const SLI: u32>(
    alloc: Global,
    n: u32,
    words: u32,
    capacity: u32,
) -> Result<Vec<QueueWorker<SLI>>, OpenFault>
    requires { IsLevel SLI }
    ensures yard { IfOk result (λ workers. IsQueueYard workers.items) }
    ensures world { IfOk result (λ workers. queue_world_of workers.items ≡ opened_world n words capacity) }
    ensures fresh { IfOk result (λ workers. AreFreshQueues workers.items) }
    ensures count { IfOk result (λ workers. vec_len workers ≡ n) }
    ensures refused { RefusesSizes SLI n words capacity result }
{
    check_sizes::<SLI>(n, words, capacity)?;
    match open_without_ends(alloc, n, words, capacity) {
        Ok((mut workers, mut ends)) => {
            give_all(&mut workers, &mut ends);
            Ok(workers)
        }
        Err(_) => Err(OpenFault::NoMemory),
    }
}

/// Opens workers with no ends to others' queues, and answers these ends apart, queue by queue.
fn open_without_ends<const SLI: u32>(
    alloc: Global,
    n: u32,
    words: u32,
    capacity: u32,
) -> Result<(Vec<QueueWorker<SLI>>, Vec<Vec<PosterEnd>>), NoMemory>
    requires level { IsLevel SLI }
    requires sizes { AreSizes SLI n words capacity }
    ensures given { IfOk result (λ r. AreGiven n words capacity n r.0.items) }
    ensures ends { IfOk result (λ r. AreUngiven r.0.items r.1.items × (vec_len r.1 ≡ n)) }
{
    let mut workers = Vec::with_capacity(alloc, n as usize)?;
    let mut ends = Vec::with_capacity(alloc, n as usize)?;
    for id in 0..n {
        let (own, posters) = mailbox(alloc, id, n, capacity)?;
        let posts = no_ends(alloc, n)?;
        workers.push_reserved(open_worker(alloc, id, words, Queues { own, posts })?);
        ends.push_reserved(posters);
    }
    Ok((workers, ends))
}

/// Gives each worker its end to each other queue, the last one first.
fn give_all<const SLI: u32>(workers: &mut [QueueWorker<SLI>], ends: &mut Vec<Vec<PosterEnd>>)
    requires given { (words : ℕ) × (capacity : ℕ) × AreGiven (length workers.old) words capacity (vec_len ends.old) workers.old }
    requires ends { AreUngiven workers.old ends.old.items × (vec_len ends.old ≤ length workers.old) }
    ensures { (words capacity : ℕ) → AreGiven (length workers.old) words capacity (vec_len ends.old) workers.old
        → AreGiven (length workers.old) words capacity 0 workers.new }
{
    while let Some(mut posters) = ends.pop() {
        let k = workers.len();
        give_ends(workers, ends.len(), k, &mut posters);
    }
}

/// Gives each worker below `k` its end to queue `j`, the last one first.
pub(crate) fn give_ends<const SLI: u32>(
    workers: &mut [QueueWorker<SLI>],
    j: usize,
    k: usize,
    posters: &mut Vec<PosterEnd>,
)
    requires inside { k ≤ length workers.old }
    requires slots { HaveSlotsFor j workers.old }
    requires numbers { map number_of posters.old.items ≡ below_but j k }
    ensures gave { GaveEnds workers.old j k posters.old.items workers.new }
    ensures capacity { vec_capacity posters.new ≡ vec_capacity posters.old }
{
    let mut i = k;
    while i > 0 {
        i -= 1;
        // The owner has no end to its own queue.
        if i == j {
            continue;
        }
        let Some(end) = posters.pop() else {
            unreachable!()
        };
        put_end(&mut workers[i], j, end);
    }
}

/// Puts an end into its slot.
fn put_end<const SLI: u32>(worker: &mut QueueWorker<SLI>, j: usize, end: PosterEnd)
    requires { j < vec_len worker.old.ports.posts }
    ensures posts { worker.new.ports.posts.items ≡ slice_set worker.old.ports.posts.items j (Some end) }
    ensures same { (worker.new.heap ≡ worker.old.heap) × (worker.new.id ≡ worker.old.id) × (worker.new.ports.own ≡ worker.old.ports.own) }
{
    worker.ports.posts[j] = Some(end);
}
