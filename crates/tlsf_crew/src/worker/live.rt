ghost use Rattle.tlsf_heap.specs.Effects.{AsksLive};
ghost use Rattle.tlsf_crew.specs.worker.Workers.{seen_of, LeavesRest};

use crate::worker::ports::Ports;
use crate::worker::worker::Worker;
use tlsf_heap::Name;

impl<const SLI: u32, P: Ports> Worker<SLI, P> {
    /// Whether a live block of the own heap has that name. A name of another worker's heap is none, whatever that heap holds.
    ///
    /// - `asks`: at most three touches of the heap's memory.
    ///
    /// ```
    /// let name = worker.allocate(8)?;
    /// let live = worker.is_live(name);        // true, and false after a release of it
    /// ```
    pub fn is_live(&mut self, name: Name) -> bool
        ensures asks { AsksLive (seen_of self.old) (seen_of self.new) name result }
        ensures rest { LeavesRest P.keeps_yards P.extents self.old self.new }
    {
        P::heap_keeps();
        self.heap.is_live(name)
    }
}
