ghost use Rattle.std.specs.Prelude.{◌≡◌, ◌+◌, ◌<◌, Some, length, vec_len, slice_set, IfOk, OnOk};
ghost use Rattle.tlsf_class.specs.Classes.{IsLevel};
ghost use Rattle.tlsf_crew.specs.worker.Sizes.{AreSizes, RefusesSizes};
ghost use Rattle.tlsf_crew.specs.model.Opening.{opened_world};
ghost use Rattle.tlsf_crew.specs.lanes.LaneOpening.{KnowFree, AreFresh};
ghost use Rattle.tlsf_crew.specs.lanes.Yard.{world_of, IsYard};
ghost use Rattle.tlsf_crew.specs.lanes.LaneSteps.{AreTwo};
ghost use Rattle.tlsf_crew.specs.lanes.NewLanes.{IsLaid};
ghost use Rattle.tlsf_crew.specs.lanes.LaneWorkers.{id_and_capacity};

use crate::worker::lanes::Lanes;
use crate::worker::opening::{check_sizes, no_ends, open_worker};
use crate::worker::worker::Worker;
use std::alloc::Global;
use tlsf_heap::OpenFault;
use tlsf_post::{NoMemory, PostEnd, TakeEnd, lane};

/// Opens a yard of level 4 or 5, of `n` workers, 1 to 8, numbered from 0. Each owns a heap of its number over `words` words, 4 to
/// 2^20 at level 4 and to 2^24 at level 5. From each to each other goes a lane that holds up to `capacity` posts, 1 to 1,024. Each
/// end that posts knows all its slots to be free, so the first `capacity` posts into a lane are never refused as `Full`. No end has
/// sent or taken a post, so what it has sent or taken later is all since the yard was opened.
///
/// - `count`: there are `n` workers, so a number below `n` is the index of one.
///
/// Refused as `BadSize` where a number is out of range; otherwise as `NoMemory` where memory was not granted.
///
/// ```
/// let mut workers = open_yard::<4>(alloc, 2, 1024, 8)?; // two heaps of 8 KiB, and two lanes of up to 8 posts
/// let name = workers[0].allocate(100)?;                 // a block of worker 0
/// let freed = workers[1].release(name);                 // Ok(Released::Posted): its name waits for worker 0
/// ```
pub fn open_yard<const SLI: u32>(
    alloc: Global,
    n: u32,
    words: u32,
    capacity: u32,
) -> Result<Vec<Worker<SLI>>, OpenFault>
    requires { IsLevel SLI }
    ensures yard { IfOk result (λ workers. IsYard workers.items) }
    ensures world { IfOk result (λ workers. world_of workers.items ≡ opened_world n words capacity) }
    ensures free { IfOk result (λ workers. KnowFree workers.items capacity) }
    ensures fresh { IfOk result (λ workers. AreFresh workers.items) }
    ensures count { IfOk result (λ workers. vec_len workers ≡ n) }
    ensures refused { RefusesSizes SLI n words capacity result }
{
    check_sizes::<SLI>(n, words, capacity)?;
    let Ok(mut workers) = open_alone(alloc, n, words, capacity) else {
        return Err(OpenFault::NoMemory);
    };
    match lay_all(alloc, &mut workers, words, capacity) {
        Ok(()) => Ok(workers),
        Err(_) => Err(OpenFault::NoMemory),
    }
}

/// Opens workers with room for lanes to `n` workers, and no lanes.
fn open_alone<const SLI: u32>(
    alloc: Global,
    n: u32,
    words: u32,
    capacity: u32,
) -> Result<Vec<Worker<SLI>>, NoMemory>
    requires level { IsLevel SLI }
    requires sizes { AreSizes SLI n words capacity }
    ensures { IfOk result (λ workers. IsLaid workers.items n words capacity 0 0) }
{
    let mut workers = Vec::with_capacity(alloc, n as usize)?;
    for id in 0..n {
        let posts = no_ends(alloc, n)?;
        let takes = no_ends(alloc, n)?;
        let ports = Lanes {
            capacity,
            posts,
            takes,
        };
        workers.push_reserved(open_worker(alloc, id, words, ports)?);
    }
    Ok(workers)
}

/// Lays all lanes, row by row.
fn lay_all<const SLI: u32>(
    alloc: Global,
    workers: &mut [Worker<SLI>],
    words: u32,
    capacity: u32,
) -> Result<(), NoMemory>
    requires sizes { AreSizes SLI (length workers.old) words capacity }
    requires laid { IsLaid workers.old (length workers.old) words capacity 0 0 }
    ensures { OnOk result (IsLaid workers.new (length workers.old) words capacity (length workers.old) 0) }
{
    for i in 0..workers.len() {
        for j in 0..workers.len() {
            if i != j {
                lay_lane(alloc, workers, i, j, words, capacity)?;
            }
        }
    }
    Ok(())
}

/// Lays the lane from worker i to worker j.
fn lay_lane<const SLI: u32>(
    alloc: Global,
    workers: &mut [Worker<SLI>],
    i: usize,
    j: usize,
    words: u32,
    capacity: u32,
) -> Result<(), NoMemory>
    requires sizes { AreSizes SLI (length workers.old) words capacity }
    requires two { AreTwo (length workers.old) i j }
    requires laid { IsLaid workers.old (length workers.old) words capacity i j }
    ensures { OnOk result (IsLaid workers.new (length workers.old) words capacity i (j + 1)) }
{
    let (post, take) = lane(alloc, capacity)?;
    set_post_end(&mut workers[i], j, post);
    set_take_end(&mut workers[j], i, take);
    Ok(())
}

fn set_post_end<const SLI: u32>(worker: &mut Worker<SLI>, j: usize, end: PostEnd)
    requires { j < vec_len worker.old.ports.posts }
    ensures posts { worker.new.ports.posts.items ≡ slice_set worker.old.ports.posts.items j (Some end) }
    ensures same { (worker.new.heap ≡ worker.old.heap) × (id_and_capacity worker.new ≡ id_and_capacity worker.old) × (worker.new.ports.takes ≡ worker.old.ports.takes) }
{
    worker.ports.posts[j] = Some(end);
}

fn set_take_end<const SLI: u32>(worker: &mut Worker<SLI>, i: usize, end: TakeEnd)
    requires { i < vec_len worker.old.ports.takes }
    ensures takes { worker.new.ports.takes.items ≡ slice_set worker.old.ports.takes.items i (Some end) }
    ensures same { (worker.new.heap ≡ worker.old.heap) × (id_and_capacity worker.new ≡ id_and_capacity worker.old) × (worker.new.ports.posts ≡ worker.old.ports.posts) }
{
    worker.ports.takes[i] = Some(end);
}
