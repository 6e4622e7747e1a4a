//! The ports of a worker, of whatever kind: all that it asks of them.
ghost use Rattle.std.specs.Prelude.{Some, slice_get, length, take, ◌≡◌, ◌<◌, ◌≤◌, ℕ, List, Option, Result, true, false};
ghost use Rattle.tlsf_words.specs.Memory.{Extent};
ghost use Rattle.tlsf_heap.specs.declared.name.Name.{Name};
ghost use Rattle.tlsf_calls.specs.declared.crew_refusal.CrewRefusal.{CrewRefusal};
ghost use Rattle.tlsf_post.specs.declared.post.Post.{Post};
ghost use Rattle.tlsf_crew.specs.declared.worker.worker.Worker.{Worker};
ghost use Rattle.tlsf_crew.specs.worker.Calls.{put_answer};
ghost use Rattle.tlsf_crew.specs.worker.Slices.{SliceTaken};
ghost use Rattle.tlsf_crew.specs.worker.Workers.{slot_of, heap_of, SameButHeap, KeepsHeap};

use tlsf_calls::CrewRefusal;
use tlsf_heap::Name;
use tlsf_post::Post;

/// The ports of a worker: its ways to the other workers of its yard, and their ways to it. They are [`crate::Lanes`] or
/// [`crate::Queues`].
pub trait Ports: Sized {
    // There is a port to that worker.
    ghost reaches: { Self → ℕ → Type 0 };

    // There is a source of posts of that number.
    ghost hears: { Self → ℕ → Type 0 };

    // No source has this number or a higher one.
    ghost sources: { Self → ℕ };

    // The memory of its ends, and of the lists of them.
    ghost extents: { Self → List Extent };

    // The worker that the entry of a take names, by the number that its post has: none where it is that of the source.
    ghost sent_by: { ℕ → Option ℕ };

    // The second worker fits each yard in which the first was, in its place.
    ghost keeps_yards: { (sli : ℕ) → Worker sli Self → Worker sli Self → Type 0 };

    /// Whether there is a port to worker `j`.
    fn has_port(&self, j: usize) -> bool
        ensures yes { result ≡ true → reaches self.now j }
        ensures no { result ≡ false → ¬ (reaches self.now j) };

    /// The number above those of all sources.
    fn source_count(&self) -> usize
        ensures { result ≡ sources self.now };

    /// Whether there is a source of posts of that number.
    fn has_source(&self, source: usize) -> bool
        ensures yes { result ≡ true → hears self.now source }
        ensures no { result ≡ false → ¬ (hears self.now source) };

    /// The worker that the entry of a take names, by the number that its post has. It is none where each source is one worker's, by
    /// whose number it goes.
    fn sender(from: u32) -> Option<u32>
        ensures { result ≡ Self.sent_by from };

    /// Says that a worker with another heap of the same number, lawful where the first was, fits its yard. It does nothing.
    fn heap_keeps()
        ensures { (sli : ℕ) (a v : Worker sli Self) → SameButHeap a v → KeepsHeap (heap_of a) (heap_of v) → keeps_yards sli a v };
}

/// Stands for the runtime where a call over lanes has none: it waits for nothing.
pub(crate) struct NoRuntime;

/// Ports whose calls are passed a runtime, since they may wait over queues. Over lanes they make nothing of it.
pub(crate) trait Exchange<R>: Ports {
    // The answer and the effect of a put of a name, by the worker of a number.
    ghost puts: { ℕ → Self → Self → Name → Result (Unit {0}) CrewRefusal → Type 0 };

    // The answer and the effect of a take from the source of a number.
    ghost takes: { Self → Self → ℕ → Option Post → Type 0 };

    // The effect where a drain is to take no more posts of a source, though fewer were taken than were asked for.
    ghost stops: { Self → Self → ℕ → Type 0 };

    /// Puts a name through the port to the worker of its heap. It is `Full` where that takes no post.
    fn put(&mut self, rt: &R, from: u32, name: Name) -> Result<(), CrewRefusal>
        requires { Self.reaches self.old name.heap }
        ensures put { puts from self.old self.new name result }
        ensures stays { Self.extents self.new ≡ Self.extents self.old };

    /// Takes the next post of a source.
    fn take(&mut self, rt: &R, source: usize) -> Option<Post>
        requires { Self.hears self.old source }
        ensures took { takes self.old self.new source result }
        ensures still { Self.hears self.new source }
        ensures stays { Self.extents self.new ≡ Self.extents self.old };

    /// Takes as many posts of a source as there are places, and answers how many came: fewer where a take showed no post.
    fn take_slice(&mut self, rt: &R, source: usize, places: &mut [Post]) -> usize
        requires source { Self.hears self.old source }
        requires places { 0 < length places.old }
        ensures most { result ≤ length places.old }
        ensures came { SliceTaken takes self.old self.new source (length places.old) result (take result places.new) }
        ensures still { Self.hears self.new source }
        ensures stays { Self.extents self.new ≡ Self.extents self.old };

    /// Ends a drain of a source that is to take no more posts.
    fn stop(&mut self, rt: &R, source: usize)
        requires { Self.hears self.old source }
        ensures stopped { stops self.old self.new source }
        ensures stays { Self.extents self.new ≡ Self.extents self.old };
}

/// The answer of a port, whose end may give back what it didn't take.
pub(crate) fn put_answer<E: Drop>(put: Result<(), E>, name: Name) -> Result<(), CrewRefusal>
    ensures { result ≡ put_answer name put }
{
    match put {
        Ok(()) => Ok(()),
        Err(_) => Err(CrewRefusal::Full(name)),
    }
}

/// Whether one of these ends is there, at that number.
pub(crate) fn has_end<E>(ends: &[Option<E>], at: usize) -> bool
    ensures yes { result ≡ true → (e : E) × (slot_of (slice_get ends.now at) ≡ Some e) }
    ensures no { result ≡ false → ¬ ((e : E) × (slot_of (slice_get ends.now at) ≡ Some e)) }
{
    match ends.get(at) {
        Some(Some(_)) => true,
        Some(None) => false,
        None => false,
    }
}
