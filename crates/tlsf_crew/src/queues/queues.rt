//! The queues of a worker, and what it does over them.
ghost use Rattle.std.specs.Prelude.{◌+◌, ◌*◌, ⊤, Some};
ghost use Rattle.tlsf_crew.specs.worker.Workers.{WorksInYard};
ghost use Rattle.tlsf_crew.specs.worker.Calls.{Posts, ReleasesOrPosts};
ghost use Rattle.tlsf_crew.specs.worker.Drains.{AreFew};
ghost use Rattle.tlsf_crew.specs.queues.QueueWorkers.{KeepsQueueYards, ReachesQueue, PutsIntoQueue, AsksQueue, queue_extents};
ghost use Rattle.tlsf_crew.specs.queues.QueueCalls.{TakenFromQueue, DrainedQueue};
ghost use Rattle.tlsf_crew.specs.queues.QueueNotes.{StopsAtQueue};

use crate::worker::notes::NoNotes;
use crate::worker::ports::{Exchange, Ports, has_end, put_answer};
use crate::worker::worker::{AT_ONCE, NO_POST, Worker, drain_source, post, release, take_next};
use std::sync::Wait;
use tlsf_calls::{CrewRefusal, Drained, Released, Took};
use tlsf_heap::Name;
use tlsf_post::{OwnerEnd, Post, PosterEnd};

/// The queues of a worker. One is its own, into which all others of its yard post; besides, it has an end to the queue of each of
/// them.
#[derive(Drop)]
pub struct Queues {
    pub(crate) own: OwnerEnd,
    // The end to the queue of each other worker; none to its own.
    pub(crate) posts: Vec<Option<PosterEnd>>,
}

/// A worker over queues.
pub type QueueWorker<const SLI: u32> = Worker<SLI, Queues>;

impl Ports for Queues {
    ghost reaches = { ReachesQueue };

    // The own queue is the one source, of number 0.
    ghost hears = { λ queues source. ⊤ };

    ghost sources = { λ queues. 1 };

    ghost extents = { queue_extents };

    // The entry of a take names who posted.
    ghost sent_by = { λ from. Some from };

    ghost keeps_yards = { λ sli a v. KeepsQueueYards a v };

    fn has_port(&self, j: usize) -> bool {
        has_end(&self.posts, j)
    }

    fn source_count(&self) -> usize {
        1
    }

    fn has_source(&self, _source: usize) -> bool {
        true
    }

    fn sender(from: u32) -> Option<u32> {
        Some(from)
    }

    fn heap_keeps() {}
}

impl<R: Wait> Exchange<R> for Queues {
    ghost puts = { PutsIntoQueue };

    ghost takes = { AsksQueue };

    ghost stops = { StopsAtQueue };

    fn put(&mut self, rt: &R, _from: u32, name: Name) -> Result<(), CrewRefusal> {
        let Some(end) = self.posts[name.heap as usize].as_mut() else {
            unreachable!()
        };
        put_answer(end.put(rt, name), name)
    }

    fn take(&mut self, rt: &R, _source: usize) -> Option<Post> {
        self.own.take(rt)
    }

    /// A queue has no slices, so the posts come one by one.
    fn take_slice(&mut self, rt: &R, _source: usize, places: &mut [Post]) -> usize {
        let mut count = 0;
        while count < places.len() {
            let Some(post) = self.own.take(rt) else {
                break;
            };
            places[count] = post;
            count += 1;
        }
        count
    }

    /// All that may come was taken, so it waits for the queue to be seen empty.
    fn stop(&mut self, rt: &R, _source: usize) {
        self.own.wait_empty(rt);
    }
}

impl<const SLI: u32> QueueWorker<SLI> {
    /// Posts the name of another worker's block into the queue of its owner, unread. It may spin while a post is half put
    /// or taken by another thread, and so needs `Wait`.
    ///
    /// - `posts`: a name of the own heap is refused as `Foreign`, and nothing changes: see [`QueueWorker::free`]. A name of another
    ///   worker's heap is put into its queue, where no more posts wait then than it holds. Or it is given back as `Full`, where at
    ///   one moment of the call the queue held its capacity. A name of no worker is a `Stranger`, and nothing changes.
    ///
    /// ```
    /// workers[1].post(rt, name)?; // worker 0, which allocated it, will take and release it
    /// ```
    pub fn post<R: Wait>(&mut self, rt: &R, name: Name) -> Result<(), CrewRefusal>
        ensures posts { Posts ReachesQueue PutsIntoQueue self.old self.new name result }
        ensures works { WorksInYard KeepsQueueYards queue_extents 0 self.old self.new }
    {
        post(self, rt, name)
    }

    /// Releases a block of the own heap, or posts the name of another worker's block into the queue of its owner, unread. As
    /// [`crate::Worker::release`]; where the name is known to be the own one or another's, [`QueueWorker::free`] or
    /// [`QueueWorker::post`] says which. It may spin as [`QueueWorker::post`] does.
    ///
    /// - `releases`: a name of the own heap is answered as the heap answers it. A name of another worker's heap is posted. A name
    ///   of no worker is a `Stranger`, and nothing changes.
    /// - `works`: at most 64 touches of the own heap's memory.
    ///
    /// ```
    /// let here = workers[0].release(rt, name);  // Ok(Released::Freed), where worker 0 allocated it
    /// let there = workers[1].release(rt, name); // Ok(Released::Posted): worker 0 will take and release it
    /// ```
    pub fn release<R: Wait>(&mut self, rt: &R, name: Name) -> Result<Released, CrewRefusal>
        ensures releases { ReleasesOrPosts ReachesQueue PutsIntoQueue self.old self.new name result }
        ensures works { WorksInYard KeepsQueueYards queue_extents 64 self.old self.new }
    {
        release(self, rt, name)
    }

    /// Takes the post that has waited longest in the own queue, and releases the block that it names. The post is gone
    /// then, whatever the heap's answer. `None` comes where the queue was empty at one moment of the call. It may spin
    /// while a post is half put by another thread, and so needs `Wait`.
    ///
    /// - `taken`: the own queue is asked for one post. Where it answers one, no more waited than the queue holds.
    /// - `works`: at most 64 touches of the own heap's memory.
    ///
    /// ```
    /// if let Some(took) = worker.take(rt) {
    ///     let freed = took.answer.is_ok(); // whether the block that worker `took.from` posted was released
    /// }
    /// ```
    pub fn take<R: Wait>(&mut self, rt: &R) -> Option<Took>
        ensures taken { TakenFromQueue self.old self.new result }
        ensures works { WorksInYard KeepsQueueYards queue_extents 64 self.old self.new }
    {
        take_next(self, rt, 0)
    }

    /// Takes from the own queue and releases each block that a post names, until `most` posts were taken or the queue is
    /// empty. It may spin as [`QueueWorker::take`] does.
    ///
    /// - `drained`: the takes, each as [`QueueWorker::take`] answers it, the heap that their releases leave, and their
    ///   count. A post is gone and counted as taken whatever the heap's answer; `freed` counts those answered by `Ok`.
    /// - `few`: no more than `most` are taken.
    /// - `works`: at most 64 touches of the own heap's memory for each post that is taken.
    ///
    /// ```
    /// let drained = worker.drain(rt, 64); // no more than 64 posts: a bound on the touches that it makes
    /// ```
    pub fn drain<R: Wait>(&mut self, rt: &R, most: u32) -> Drained
        ensures drained { DrainedQueue self.old self.new most result }
        ensures few { AreFew most result }
        ensures works { WorksInYard KeepsQueueYards queue_extents (64 * result.taken) self.old self.new }
    {
        drain_source(self, rt, 0, most, &mut [NO_POST; AT_ONCE], &mut NoNotes)
    }
}
