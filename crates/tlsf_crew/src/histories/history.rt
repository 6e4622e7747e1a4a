ghost use Rattle.std.specs.Prelude.{◌≡◌, ℕ, ◌<◌, ◌++◌, List, [], length};
ghost use Rattle.tlsf_crew.specs.histories.History.{AreLawful, RunsThrough, RunsTo, Tells, answers_on, calls_on, posts_made, posts_taken};
ghost use Rattle.tlsf_crew.specs.model.World.{World, heap_in, replies};
ghost use Rattle.tlsf_calls.specs.declared.event.Event.{Event};
ghost use Rattle.tlsf_calls.specs.declared.entry.Entry.{Entry};

/// Each heap has one history, in which each call made on it and each post taken for it stands once, in its caller's order. Each
/// answer is that of the sequential heap at that point.
///
/// ```text
/// event                     entries                       what they tell
/// worker 0 allocates 8      0 Allocate(8): Made(x)        heap 0 was called Allocate(8), and answered x
/// worker 1 releases x       1 Release(x): Posted          a post of x went into the lane from 1 to 0
/// worker 0 drains           0 Take(1): Took(x, Ok)        heap 0 was called Release(x), and answered Ok; the post came out
///                           0 Drain: Drained(1)           nothing of a heap or a lane
/// ```
pub fn one_history()
    // The entries tell the events, each once and in order, and the name that each made.
    ensures told { (sli : ℕ) (w : World sli) (es : List Event) → let r = replies w es in Tells (length w.heaps) [] es r.made r.entries }

    // Run on the heap in turn, the calls that they tell of it give the answers that they tell. They leave the heap of the last
    // world.
    ensures heaps { (sli : ℕ) (w : World sli) (es : List Event) (j : ℕ) → j < length w.heaps →
        let r = replies w es in
        RunsTo sli (heap_in w j) (calls_on j r.made r.entries) (answers_on j r.entries) (heap_in r.world j) }

    // The posts that waited in a lane, and then those that were posted, are those that were taken, and then those that wait. So no
    // post is lost, doubled or overtaken.
    ensures posts { (sli : ℕ) (w : World sli) (es : List Event) (i j : ℕ) →
        let r = replies w es in
        w.waiting i j ++ posts_made i j r.made r.entries ≡ posts_taken i j r.entries ++ r.world.waiting i j }

    // Live blocks never overlap and free blocks never touch.
    ensures lawful { (sli : ℕ) (w : World sli) (es : List Event) → AreLawful w → AreLawful (replies w es).world }

    // So it is after each entry, each take of a drain included: each heap is what the calls told so far leave, and lawful.
    ensures always_lawful { (sli : ℕ) (w : World sli) (es : List Event) (before later : List Entry) (j : ℕ) → AreLawful w → j < length w.heaps →
        let r = replies w es in
        r.entries ≡ before ++ later → RunsThrough sli (heap_in w j) j r.made before later (heap_in r.world j) }
{}
