ghost use Rattle.std.specs.Fn.{FnOnceTakesAt, FnOnceTakesAtMut};
ghost use Rattle.std.specs.Prelude.{◌≡◌, ℕ, ◌+◌, ◌*◌, ◌<◌, ◌≤◌, List, length, map, Some, IfNone, IfOk, OnErr};
ghost use Rattle.tlsf_class.specs.Classes.{most_words};
ghost use Rattle.tlsf_heap.specs.Blocks.{want};
ghost use Rattle.tlsf_heap.specs.Calls.{allocated, released, written, read_of, read_answer, resized};
ghost use Rattle.tlsf_heap.specs.Effects.{Allocates, Looks, Reads, Releases, Reports, Resizes, Writes};
ghost use Rattle.tlsf_heap.specs.InPlace.{ArePayload, Alters, Inspects};
ghost use Rattle.tlsf_heap.specs.Lawful.{IsLawful};
ghost use Rattle.tlsf_heap.specs.Laws.{IsLive};
ghost use Rattle.tlsf_heap.specs.Touched.{allocate_touches, read_touches, release_touches, resize_touches, write_touches};
ghost use Rattle.tlsf_calls.specs.declared.took.Took.{Took};
ghost use Rattle.tlsf_crew.specs.declared.worker.worker.Worker.{Worker};
ghost use Rattle.tlsf_crew.specs.worker.Workers.{heap_of, seen_of, touches_of, LeavesRest, SameButHeap, Stays, KeepsHeap, WorksWithin};
ghost use Rattle.tlsf_crew.specs.worker.Calls.{by_heap, AfterTake, HandsOut, Posts, ReleasesOrPosts, TakenFrom};
ghost use Rattle.tlsf_crew.specs.worker.Drains.{IsCountOf};
ghost use Rattle.tlsf_crew.specs.worker.Notes.{AllNoted, DrainsWithin, SourceNoted};
ghost use Rattle.tlsf_crew.specs.worker.Slices.{post_of, EachReleased, KeepsRoom, MayTake};

use crate::worker::lanes::Lanes;
use crate::worker::notes::Notes;
use crate::worker::ports::{Exchange, Ports};
use tlsf_calls::{CrewRefusal, Drained, Released, Took};
use tlsf_heap::{Heap, Name, PlacedBlock, Refusal, Report};
use tlsf_post::Post;

/// How many posts a drain takes out of a lane at once.
pub(crate) const AT_ONCE: usize = 32;

/// Stands in a place until a post comes there.
pub(crate) const NO_POST: Post = Post {
    from: 0,
    name: Name {
        heap: 0,
        at: 0,
        serial: 0,
    },
};

/// A worker: the owner of one heap, with ports to the other workers of its yard, which are [`Lanes`] where nothing else is said.
/// `SLI` is the level of the yard's heaps, 4 or 5. No call takes memory: its heap and its ports stay where they lie.
#[derive(Drop)]
pub struct Worker<const SLI: u32, P = Lanes> {
    pub(crate) heap: Heap<SLI>,
    pub(crate) id: u32,
    pub(crate) ports: P,
}

/// The heap's answer as the worker's, of these ports.
fn as_crew<P: Ports, T>(answer: Result<T, Refusal>) -> Result<T, CrewRefusal>
    ensures answer { result ≡ by_heap answer }
    ensures yard { (sli : ℕ) (a v : Worker sli P) → SameButHeap a v → KeepsHeap (heap_of a) (heap_of v) → P.keeps_yards sli a v }
{
    P::heap_keeps();
    match answer {
        Ok(done) => Ok(done),
        Err(why) => Err(CrewRefusal::Heap(why)),
    }
}

/// Posts the name of another worker's block, unread. A name of the own heap is refused as `Foreign`.
pub(crate) fn post<const SLI: u32, R, P: Exchange<R>>(
    worker: &mut Worker<SLI, P>,
    rt: &R,
    name: Name,
) -> Result<(), CrewRefusal>
    ensures posts { Posts P.reaches P.puts worker.old worker.new name result }
    ensures stays { Stays P.extents worker.old worker.new }
{
    if name.heap == worker.id {
        return Err(CrewRefusal::Heap(Refusal::Foreign));
    }
    if !worker.ports.has_port(name.heap as usize) {
        return Err(CrewRefusal::Stranger);
    }
    worker.ports.put(rt, worker.id, name)
}

/// Releases a block of the own heap, or posts the name of another worker's block, unread.
pub(crate) fn release<const SLI: u32, R, P: Exchange<R>>(
    worker: &mut Worker<SLI, P>,
    rt: &R,
    name: Name,
) -> Result<Released, CrewRefusal>
    ensures releases { ReleasesOrPosts P.reaches P.puts worker.old worker.new name result }
    ensures within { WorksWithin P.extents 64 worker.old worker.new }
{
    if name.heap == worker.id {
        return match worker.heap.release(name) {
            Ok(()) => Ok(Released::Freed),
            Err(why) => Err(CrewRefusal::Heap(why)),
        };
    }
    match post(worker, rt, name) {
        Ok(()) => Ok(Released::Posted),
        Err(why) => Err(why),
    }
}

/// Releases the block that a post names on the own heap.
fn release_post<const SLI: u32, P: Ports>(worker: &mut Worker<SLI, P>, post: Post) -> Took
    ensures released { AfterTake worker.old worker.new (Some post) (Some result) }
    ensures releases { Releases release_touches (seen_of worker.old) (seen_of worker.new) post.name result.answer }
    ensures ports { worker.new.ports ≡ worker.old.ports }
    ensures post { post_of result ≡ post }
    ensures within { WorksWithin P.extents 64 worker.old worker.new }
{
    let answer = worker.heap.release(post.name);
    Took {
        from: post.from,
        name: post.name,
        answer,
    }
}

/// Takes the next post of a source that is there, and releases the block that it names.
pub(crate) fn take_next<const SLI: u32, R, P: Exchange<R>>(
    worker: &mut Worker<SLI, P>,
    rt: &R,
    source: usize,
) -> Option<Took>
    requires { P.hears worker.old.ports source }
    ensures taken { TakenFrom P.takes worker.old worker.new source result }
    ensures still { P.hears worker.new.ports source }
    ensures untouched { IfNone result (touches_of worker.new ≡ touches_of worker.old) }
    ensures within { WorksWithin P.extents 64 worker.old worker.new }
{
    let post = worker.ports.take(rt, source)?;
    Some(release_post(worker, post))
}

/// Releases the block that each of these posts of a source names, in their order, and notes each. It answers how many blocks the own
/// heap released.
fn release_posts<const SLI: u32, P: Ports, N: Notes>(
    worker: &mut Worker<SLI, P>,
    source: usize,
    posts: &[Post],
    notes: &mut N,
) -> u32
    requires admitted { MayTake N.admitted N.noted notes.old source (length posts.now) }
    requires room { N.has_room notes.old }
    requires few { length posts.now ≤ 4294967295 }
    ensures released { (tooks : List Took) × EachReleased P.sent_by N.noted worker.old worker.new notes.old notes.new source tooks × (map post_of tooks ≡ posts.now) × IsCountOf (record { taken = length posts.now; freed = result }) tooks }
    ensures ports { worker.new.ports ≡ worker.old.ports }
    ensures notes { KeepsRoom N.has_room N.most notes.old notes.new }
    ensures within { WorksWithin P.extents (64 * length posts.now) worker.old worker.new }
{
    let mut freed = 0;
    for post in posts {
        let took = release_post(worker, *post);
        notes.note(worker.id, source, P::sender(took.from), took);
        if took.answer.is_ok() {
            freed += 1;
        }
    }
    freed
}

/// Takes from one source by slices of as many posts as there are places, and releases. It ends when `most` posts were taken, the
/// notes admit no more, or the source shows no post.
pub(crate) fn drain_source<const SLI: u32, R, P: Exchange<R>, N: Notes>(
    worker: &mut Worker<SLI, P>,
    rt: &R,
    source: usize,
    most: u32,
    places: &mut [Post],
    notes: &mut N,
) -> Drained
    requires source { P.hears worker.old.ports source }
    requires places { 0 < length places.old }
    requires room { N.has_room notes.old }
    ensures drained { (tooks : List Took) × SourceNoted (record { hears = P.hears; takes = P.takes; stops = P.stops; sent_by = P.sent_by; admitted = N.admitted; noted = N.noted }) worker.old worker.new notes.old notes.new source most tooks × IsCountOf result tooks }
    ensures bounds { DrainsWithin P.extents N.has_room N.most most worker.old worker.new notes.old notes.new result }
{
    let mut drained = Drained { taken: 0, freed: 0 };
    while drained.taken < most {
        let left = (most - drained.taken) as usize;
        let wanted = notes.admits(source, left.min(places.len()));
        if wanted == 0 {
            worker.ports.stop(rt, source);
            break;
        }
        let (wanted_places, _) = places.split_at_mut(wanted);
        let came = worker.ports.take_slice(rt, source, wanted_places);
        let (posts, _) = wanted_places.split_at(came);
        let freed = release_posts(worker, source, posts, notes);
        drained.taken += came as u32;
        drained.freed += freed;
        if came < wanted {
            break;
        }
    }
    drained
}

/// Takes from all sources, in the rising order of their numbers, and notes each take.
pub(crate) fn drain_each<const SLI: u32, R, P: Exchange<R>, N: Notes>(
    worker: &mut Worker<SLI, P>,
    rt: &R,
    most: u32,
    notes: &mut N,
) -> Drained
    requires room { N.has_room notes.old }
    ensures drained { AllNoted (record { hears = P.hears; takes = P.takes; stops = P.stops; sent_by = P.sent_by; admitted = N.admitted; noted = N.noted }) worker.old worker.new notes.old notes.new (P.sources worker.old.ports) most result }
    ensures bounds { DrainsWithin P.extents N.has_room N.most most worker.old worker.new notes.old notes.new result }
{
    let mut places = [NO_POST; AT_ONCE];
    let mut drained = Drained { taken: 0, freed: 0 };
    for source in 0..worker.ports.source_count() {
        if worker.ports.has_source(source) {
            let left = most - drained.taken;
            let here = drain_source(worker, rt, source, left, &mut places, notes);
            drained.taken += here.taken;
            drained.freed += here.freed;
        }
    }
    drained
}

impl<const SLI: u32, P: Ports> Worker<SLI, P> {
    /// Gives a block of the own heap that holds `len` bytes of payload, all zero.
    ///
    /// - `allocates`: at most 26 touches of the heap's memory, and one more for each payload word of the block given.
    ///
    /// ```
    /// let name = worker.allocate(100)?; // a block of at least 100 bytes, all zero
    /// worker.write(name, 0, b"abc")?;
    /// ```
    pub fn allocate(&mut self, len: u32) -> Result<Name, CrewRefusal>
        ensures answer { result ≡ by_heap (allocated SLI (heap_of self.old) len).answer }
        ensures allocates { Allocates allocate_touches SLI (want len) len (seen_of self.old) (seen_of self.new) (allocated SLI (heap_of self.old) len).answer }
        ensures rest { LeavesRest P.keeps_yards P.extents self.old self.new }
    {
        as_crew::<P, _>(self.heap.allocate(len))
    }

    /// Releases a block of the own heap. A name of another worker's heap is refused as `Foreign`: `release` posts that.
    ///
    /// - `releases`: at most 30 touches of the own heap's memory.
    ///
    /// ```
    /// worker.free(name)?; // a block that this worker allocated
    /// ```
    pub fn free(&mut self, name: Name) -> Result<(), CrewRefusal>
        ensures answer { result ≡ by_heap (released (heap_of self.old) name).answer }
        ensures releases { Releases release_touches (seen_of self.old) (seen_of self.new) name (released (heap_of self.old) name).answer }
        ensures rest { LeavesRest P.keeps_yards P.extents self.old self.new }
    {
        as_crew::<P, _>(self.heap.release(name))
    }

    /// Writes bytes into a block of the own heap, from byte `at` of it on.
    ///
    /// ```
    /// worker.write(name, 96, b"abcd")?; // the bytes 96 to 99 of the block
    /// ```
    pub fn write(&mut self, name: Name, at: u32, bytes: &[u8]) -> Result<(), CrewRefusal>
        ensures answer { result ≡ by_heap (written (heap_of self.old) name at bytes.now).answer }
        ensures writes { Writes (write_touches (length bytes.now)) (seen_of self.old) (seen_of self.new) name at bytes.now (written (heap_of self.old) name at bytes.now).answer }
        ensures rest { LeavesRest P.keeps_yards P.extents self.old self.new }
    {
        as_crew::<P, _>(self.heap.write(name, at, bytes))
    }

    /// Reads bytes of a block of the own heap, from byte `at` of it on, and fills `out` with them.
    ///
    /// ```
    /// let mut out = [0; 4];
    /// worker.read(name, 96, &mut out)?; // the bytes 96 to 99 of the block
    /// ```
    pub fn read(&mut self, name: Name, at: u32, out: &mut [u8]) -> Result<(), CrewRefusal>
        ensures answer { result ≡ by_heap (read_answer (read_of (heap_of self.old) name at (length out.old))) }
        ensures reads { Reads (read_touches (length out.old)) (seen_of self.old) (seen_of self.new) name at out.old out.new (read_answer (read_of (heap_of self.old) name at (length out.old))) }
        ensures rest { LeavesRest P.keeps_yards P.extents self.old self.new }
    {
        as_crew::<P, _>(self.heap.read(name, at, out))
    }

    /// Hands the payload of a block of the own heap to `f`, which reads and writes it where it stands. Gives back what `f` answers.
    /// `f` gets the words that hold it, as `Heap::alter` hands them out. No call of a list of events and no line of a trace says
    /// it.
    ///
    /// Refused as the own heap refuses it: `Foreign` where the name is of another worker's heap, else `Stale`; `f` is then not called.
    ///
    /// - `hands`: at most four touches of the heap's memory; what `f` does there is not counted.
    ///
    /// ```
    /// worker.alter(name, |words| words[0] = 7)?; // the first eight bytes of the block
    /// ```
    pub fn alter<R, F: FnOnce(&mut [u64]) -> R>(
        &mut self,
        name: Name,
        f: F,
    ) -> Result<R, CrewRefusal>
        requires { IsLive (heap_of self.old) name → (words : List ℕ) → ArePayload (heap_of self.old) name words → FnOnceTakesAtMut F.FnOnce f words }
        ensures hands { HandsOut (seen_of self.old) (seen_of self.new) name result }
        ensures altered { IfOk result (λ r. Alters F.FnOnce f (heap_of self.old) name r (heap_of self.new)) }
        ensures err { OnErr result (heap_of self.new ≡ heap_of self.old) }
        ensures rest { LeavesRest P.keeps_yards P.extents self.old self.new }
    {
        as_crew::<P, _>(self.heap.alter(name, f))
    }

    /// Shows the payload of a block of the own heap to `f`, where it stands, and gives back what `f` answers. `f` gets the words that hold
    /// it, as `Heap::inspect` shows them. No call of a list of events and no line of a trace says it.
    ///
    /// Refused as the own heap refuses it: `Foreign` where the name is of another worker's heap, else `Stale`; `f` is then not called.
    ///
    /// - `hands`: at most four touches of the heap's memory; what `f` reads there is not counted.
    ///
    /// ```
    /// let first = worker.inspect(name, |words| words[0])?; // the first eight bytes of the block
    /// ```
    pub fn inspect<R, F: FnOnce(&[u64]) -> R>(&mut self, name: Name, f: F) -> Result<R, CrewRefusal>
        requires { IsLive (heap_of self.old) name → (words : List ℕ) → ArePayload (heap_of self.old) name words → FnOnceTakesAt F.FnOnce f words }
        ensures hands { HandsOut (seen_of self.old) (seen_of self.new) name result }
        ensures inspected { IfOk result (λ r. Inspects F.FnOnce f (heap_of self.old) name r) }
        ensures heap { heap_of self.new ≡ heap_of self.old }
        ensures rest { LeavesRest P.keeps_yards P.extents self.old self.new }
    {
        as_crew::<P, _>(self.heap.inspect(name, f))
    }

    /// Resizes a block of the own heap where it stands, so that it holds `len` bytes. Its name stays, and so do its bytes up to the
    /// smaller of both lengths; new bytes are zero.
    ///
    /// Refused as the own heap refuses it: `Foreign` where the name is of another worker's heap, else `Stale`, `NoRoom` or `Worn`. All
    /// is then as before.
    ///
    /// - `resizes`: at most 27 touches of the heap's memory, and one more for each payload word of the block.
    ///
    /// ```
    /// let name = worker.allocate(8)?;
    /// worker.resize(name, 100)?; // the same block, with 100 bytes: its first 8, and 92 zeros
    /// ```
    pub fn resize(&mut self, name: Name, len: u32) -> Result<(), CrewRefusal>
        ensures answer { result ≡ by_heap (resized (heap_of self.old) name len).answer }
        ensures resizes { Resizes resize_touches (want len) len (seen_of self.old) (seen_of self.new) name (resized (heap_of self.old) name len).answer }
        ensures rest { LeavesRest P.keeps_yards P.extents self.old self.new }
    {
        as_crew::<P, _>(self.heap.resize(name, len))
    }

    /// The report on the own heap: its blocks, and how well it serves.
    ///
    /// - `reports`: at most two touches of the heap's memory for each of its blocks.
    ///
    /// ```
    /// let live = worker.report().live_bytes;
    /// ```
    pub fn report(&mut self) -> Report
        ensures reports { Reports SLI (seen_of self.old) (seen_of self.new) result }
        ensures rest { LeavesRest P.keeps_yards P.extents self.old self.new }
    {
        P::heap_keeps();
        self.heap.report()
    }

    /// The tick of the own heap: that which the next accepted allocate or release stamps.
    ///
    /// ```
    /// let tick = worker.tick();               // 1 where nothing was allocated yet
    /// ```
    pub fn tick(&self) -> u64
        ensures { result ≡ (heap_of self.now).tick }
    {
        self.heap.tick()
    }

    /// The block of the own heap that begins at a place, None where none does: a number from outside is not followed. The next begins at
    /// its end, `at + size`.
    ///
    /// ```
    /// let first = worker.block_at(0);         // each heap has a block at place 0
    /// ```
    pub fn block_at(&mut self, at: u32) -> Option<PlacedBlock>
        ensures looks { Looks (seen_of self.old) (seen_of self.new) at result }
        ensures was_lawful { IsLawful (heap_of self.old) }
        ensures most { (heap_of self.old).words ≤ most_words SLI }
        ensures rest { LeavesRest P.keeps_yards P.extents self.old self.new }
    {
        P::heap_keeps();
        self.heap.block_at(at)
    }
}
