ghost use Rattle.std.specs.Prelude.{ℕ, ◌≤◌, List, length};
ghost use Rattle.tlsf_calls.specs.declared.call.Call.{Call};
ghost use Rattle.tlsf_calls.specs.declared.entry.Entry.{Entry};
ghost use Rattle.tlsf_crew.specs.model.World.{World};
ghost use Rattle.tlsf_crew.specs.race_laws.Alone.{RaceIsOne};
ghost use Rattle.tlsf_crew.specs.race_laws.QueueAlone.{IsUncontendedRace, QueueRaceIsOne};
ghost use Rattle.tlsf_crew.specs.races.QueueRace.{IsQueueRace};
ghost use Rattle.tlsf_yard_laws.specs.RunsAlone.{RaceRunsAlone};

/// Where no script has a take or a drain, a race comes to one thing, whatever the schedule of its threads. Its records and the
/// world that it leaves are the same each time.
///
/// A worker's own calls are answered by its own heap. A post is refused as full exactly where its lane held its capacity. For all
/// that is posted stays in the lane until the last drain. This last drain takes lane after lane what the others posted.
///
/// ```text
/// worker 0: Allocate(8), worker 1: Release(x) of worker 0's block x
/// in every schedule: 0 Made(y), 0 Take(1): Took(x, Ok), 0 Drained(1); 1 Posted, 1 Drained(0)
/// ```
pub fn race_without_takes()
    ensures one { (sli : ℕ) → RaceIsOne sli }

    // It comes to this: each script is answered as if it ran alone. Then each worker drains the posts that the others left for it.
    ensures alone { (sli : ℕ) → RaceRunsAlone sli }
{}

/// A race over queues comes to one thing, whatever the schedule of its threads. Its records and the world that it leaves are the
/// same each time. This holds where no script has a take or a drain, and what each worker takes one other had posted. Of more than
/// two workers none may meet a full queue.
///
/// Of two workers no more is wanted than scripts without takes, as over lanes ([`crate::race_without_takes`]). A queue hands on the
/// posts of several posters in the order in which they came, and is full whoever filled it.
///
/// ```text
/// worker 0: Allocate(8), worker 1: Release(x) of worker 0's block x, worker 2: nothing
/// in every schedule: 0 Made(y), 0 Take(1): Took(x, Ok), 0 Drained(1); 1 Posted, 1 Drained(0); 2 Drained(0)
/// ```
pub fn queue_race_without_takes()
    ensures one { (sli : ℕ) → QueueRaceIsOne sli }

    // Each race of two workers is such a one.
    ensures two { (sli : ℕ) (w v : World sli) (scripts : List (List Call)) (records : List (List Entry)) → length w.heaps ≤ 2 → IsQueueRace w scripts records v →
        IsUncontendedRace w scripts records v }
{}
