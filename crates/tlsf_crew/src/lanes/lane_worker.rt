//! The calls of a worker over lanes.
ghost use Rattle.std.specs.Prelude.{◌≡◌, ◌*◌, length, Option, None, Some, Ok, Err};
ghost use Rattle.tlsf_calls.specs.declared.took.Took.{Took};
ghost use Rattle.tlsf_crew.specs.worker.Workers.{WorksInYard};
ghost use Rattle.tlsf_crew.specs.lanes.LaneWorkers.{HasTake, HearsLane, ReachesLane, TookThrough, lane_extents};
ghost use Rattle.tlsf_crew.specs.lanes.LaneCalls.{KeepsYards, PutsIntoLane, TakenFromLane};
ghost use Rattle.tlsf_crew.specs.worker.Calls.{Posts, ReleasesOrPosts};
ghost use Rattle.tlsf_crew.specs.worker.Drains.{AreFew};
ghost use Rattle.tlsf_crew.specs.lanes.LaneTurns.{DrainedAll};
ghost use Rattle.tlsf_crew.specs.lanes.LaneNotes.{StopsAtLane};

use crate::worker::lanes::Lanes;
use crate::worker::notes::NoNotes;
use crate::worker::ports::{Exchange, NoRuntime, Ports, has_end, put_answer};
use crate::worker::worker::{Worker, drain_each, post, release, take_next};
use tlsf_calls::{CrewRefusal, Drained, Released, Took};
use tlsf_heap::Name;
use tlsf_post::Post;

impl Ports for Lanes {
    ghost reaches = { ReachesLane };

    ghost hears = { HearsLane };

    ghost sources = { λ lanes. length lanes.takes.items };

    ghost extents = { lane_extents };

    // The entry of a take names its lane.
    ghost sent_by = { λ from. None };

    ghost keeps_yards = { λ sli a v. KeepsYards a v };

    fn has_port(&self, j: usize) -> bool {
        has_end(&self.posts, j)
    }

    fn source_count(&self) -> usize {
        self.takes.len()
    }

    fn has_source(&self, source: usize) -> bool {
        has_end(&self.takes, source)
    }

    fn sender(_from: u32) -> Option<u32> {
        None
    }

    fn heap_keeps() {}
}

impl<R> Exchange<R> for Lanes {
    ghost puts = { PutsIntoLane };

    ghost takes = { λ p q from answer. TookThrough p q from answer };

    ghost stops = { StopsAtLane };

    fn put(&mut self, _rt: &R, from: u32, name: Name) -> Result<(), CrewRefusal> {
        let Some(end) = self.posts[name.heap as usize].as_mut() else {
            unreachable!()
        };
        put_answer(end.put(Post { from, name }), name)
    }

    fn take(&mut self, _rt: &R, source: usize) -> Option<Post> {
        let Some(end) = self.takes[source].as_mut() else {
            unreachable!()
        };
        end.take()
    }

    /// The places of all posts that come are handed back to the poster with one store.
    fn take_slice(&mut self, _rt: &R, source: usize, places: &mut [Post]) -> usize {
        let Some(end) = self.takes[source].as_mut() else {
            unreachable!()
        };
        end.take_slice(places)
    }

    /// A drain leaves a lane at once.
    fn stop(&mut self, _rt: &R, _source: usize) {}
}

impl<const SLI: u32> Worker<SLI> {
    /// Posts the name of another worker's block to its owner, unread.
    ///
    /// - `posts`: a name of the own heap is refused as `Foreign`, and nothing changes: see [`Worker::free`]. A name of another
    ///   worker's heap is put into the lane to it, or given back as `Full`. It comes only where that lane knows no free slot.
    ///   A name of no other worker is a `Stranger`, and nothing changes.
    ///
    /// ```
    /// workers[1].post(name)?; // worker 0, which allocated it, will take and release it
    /// ```
    pub fn post(&mut self, name: Name) -> Result<(), CrewRefusal>
        ensures posts { Posts ReachesLane PutsIntoLane self.old self.new name result }
        ensures works { WorksInYard KeepsYards lane_extents 0 self.old self.new }
    {
        post(self, &NoRuntime, name)
    }

    /// Releases a block of the own heap, or posts the name of another worker's block to its owner, unread.
    ///
    /// - `releases`: a name of the own heap is answered as the heap answers it. A name of another worker's heap is put into the
    ///   lane to it, or given back as `Full`. It comes only where that lane knows no free slot. A name of no other worker is a
    ///   `Stranger`, and nothing changes.
    /// - `works`: at most 64 touches of the own heap's memory.
    ///
    /// ```
    /// let here = workers[0].release(name);  // Ok(Released::Freed), where worker 0 allocated it
    /// let there = workers[1].release(name); // Ok(Released::Posted): worker 0 will take and release it
    /// ```
    pub fn release(&mut self, name: Name) -> Result<Released, CrewRefusal>
        ensures releases { ReleasesOrPosts ReachesLane PutsIntoLane self.old self.new name result }
        ensures works { WorksInYard KeepsYards lane_extents 64 self.old self.new }
    {
        release(self, &NoRuntime, name)
    }

    /// Takes the next post from another worker, where the end of that lane has one. It releases the block that the post names on
    /// the own heap. The post is gone then, whatever the heap's answer.
    ///
    /// - `lane`: where there is a lane from that worker, its end is asked for one post.
    /// - `nowhere`: where there is none, that worker is a `Stranger`, and nothing changes.
    /// - `works`: at most 64 touches of the own heap's memory.
    ///
    /// ```
    /// if let Some(took) = worker.take(1)? {
    ///     let freed = took.answer.is_ok(); // whether the block that worker 1 posted was released
    /// }
    /// ```
    pub fn take(&mut self, from: u32) -> Result<Option<Took>, CrewRefusal>
        ensures lane { HasTake self.old from → (answer : Option Took) × TakenFromLane self.old self.new from answer × (result ≡ Ok answer) }
        ensures nowhere { ¬ (HasTake self.old from) → (result ≡ Err CrewRefusal.Stranger) × (self.new ≡ self.old) }
        ensures works { WorksInYard KeepsYards lane_extents 64 self.old self.new }
    {
        if !self.ports.has_source(from as usize) {
            return Err(CrewRefusal::Stranger);
        }
        Ok(take_next(self, &NoRuntime, from as usize))
    }

    /// Takes from the other workers' lanes, in the rising order of their numbers, and releases each block that a post
    /// names on the own heap. It stays at a lane until that shows no post, and stops where `most` posts were taken. Up to 32
    /// posts leave a lane together, whose poster sees their slots come back at once, and are released then.
    ///
    /// - `drained`: the takes, each as [`Worker::take`] answers it, the heap that their releases leave, and their
    ///   count. A post is gone and counted as taken whatever the heap's answer; `freed` counts those answered by `Ok`.
    /// - `few`: no more than `most` are taken.
    /// - `works`: at most 64 touches of the own heap's memory for each post that is taken.
    ///
    /// ```
    /// let drained = worker.drain(64); // no more than 64 posts: a bound on the touches that it makes
    /// let refused = drained.taken - drained.freed;
    /// ```
    pub fn drain(&mut self, most: u32) -> Drained
        ensures drained { DrainedAll self.old self.new most result }
        ensures few { AreFew most result }
        ensures works { WorksInYard KeepsYards lane_extents (64 * result.taken) self.old self.new }
    {
        drain_each(self, &NoRuntime, most, &mut NoNotes)
    }
}
