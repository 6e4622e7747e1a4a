ghost use Rattle.std.specs.Prelude.{◌≡◌, ◌≢◌, ℕ, ◌<◌, ◌++◌, List, [], ◌∷◌, length};
ghost use Rattle.tlsf_calls.specs.Entries.{record_of};
ghost use Rattle.tlsf_calls.specs.declared.call.Call.{Call};
ghost use Rattle.tlsf_calls.specs.declared.entry.Entry.{Entry};
ghost use Rattle.tlsf_crew.specs.histories.History.{AreLawful, RunsThrough, RunsTo, answers_on, calls_on, posts_made, posts_taken};
ghost use Rattle.tlsf_crew.specs.histories.QueueHistory.{TellsQueue};
ghost use Rattle.tlsf_crew.specs.model.World.{World, heap_in};
ghost use Rattle.tlsf_crew.specs.races.QueueRace.{IsQueueRace};
ghost use Rattle.tlsf_crew.specs.scripts.Scripts.{last_call, script_of};

/// In a race over queues each heap has one history too, in the words of [`tlsf_crew::one_history`]. Each call made on it and each post
/// taken for it stands once, in its caller's order. Each answer is that of the sequential heap at that point. The history of heap j
/// is the record of worker j.
///
/// ```text
/// scripts                  records                       what they tell
/// 0: Allocate(8)           0 Allocate(8): Made(x)        heap 0 was called Allocate(8), and answered x
///                          0 Take(2): Took(z, Ok)        heap 0 was called Release(z), and answered Ok; z came out of its queue
///                          0 Take(1): Took(y, Ok)        and then y: posts of two workers come in any order
///                          0 Drain: Drained(2)           nothing of a heap or a queue
/// 1: Release(y)            1 Release(y): Posted          a post of y went into the queue of worker 0
///                          1 Drain: Drained(0)           nothing of a heap or a queue
/// ```
pub fn one_history_of_a_queue_race()
    // A record tells the calls of its worker's script and then the last drain, each once and in order, and the name that
    // each made.
    ensures told { (sli : ℕ) (w v : World sli) (scripts : List (List Call)) (records : List (List Entry)) (race : IsQueueRace w scripts records v) (j : ℕ) → j < length w.heaps →
        TellsQueue (length w.heaps) j [] (script_of scripts j ++ last_call ∷ []) (race.made j) (record_of records j) }

    // Run on its worker's heap in turn, the calls that it tells of that give the answers that it tells. They leave the heap that
    // comes back.
    ensures heaps { (sli : ℕ) (w v : World sli) (scripts : List (List Call)) (records : List (List Entry)) (race : IsQueueRace w scripts records v) (j : ℕ) → j < length w.heaps →
        RunsTo sli (heap_in w j) (calls_on j (race.made j) (record_of records j)) (answers_on j (record_of records j)) (heap_in v j) }

    // The posts of a worker that waited in a queue, and then those that it posted, are those that were taken. So no post is lost,
    // doubled or overtaken by another of its poster.
    ensures posts { (sli : ℕ) (w v : World sli) (scripts : List (List Call)) (records : List (List Entry)) (race : IsQueueRace w scripts records v) (i j : ℕ) → i < length w.heaps → j < length w.heaps → i ≢ j →
        w.waiting i j ++ posts_made i j (race.made i) (record_of records i) ≡ posts_taken i j (record_of records j) }

    // Live blocks never overlap and free blocks never touch.
    ensures lawful { (sli : ℕ) (w v : World sli) (scripts : List (List Call)) (records : List (List Entry)) → IsQueueRace w scripts records v → AreLawful w → AreLawful v }

    // So it is after each entry: each heap is what the calls that its record has told so far leave, and lawful.
    ensures always_lawful { (sli : ℕ) (w v : World sli) (scripts : List (List Call)) (records : List (List Entry)) (race : IsQueueRace w scripts records v) (before later : List Entry) (j : ℕ) → AreLawful w → j < length w.heaps →
        record_of records j ≡ before ++ later → RunsThrough sli (heap_in w j) j (race.made j) before later (heap_in v j) }
{}
