ghost use Rattle.std.specs.Prelude.{◌≡◌, ℕ, ◌≤◌, List};
ghost use Rattle.tlsf_trace.specs.OneText.{HasNoDrain, IsUncontendedOutput, RaceGivesOneText};
ghost use Rattle.tlsf_trace.specs.RaceHistory.{HasHistory, TellsOverLanes, TellsOverQueues};
ghost use Rattle.tlsf_trace.specs.RaceOutput.{IsQueueRaceOutput, IsRaceOutput};
ghost use Rattle.tlsf_lines.specs.Trace.{Trace};

/// Each text that [`race_trace`](crate::race_trace) may write tells what each line of the trace was answered. It tells one history
/// of each heap, from the first line to its report (`tlsf_yard_laws::one_history_of_a_race` says so of the records of one phase):
///
/// - The text is the lines of the records, phase after phase, and then a report line for each worker's heap.
/// - In each phase the record of a worker tells its lines, each once and in their order, and then the last drain (`told`). It tells
///   a drain as its takes, each from another worker, and then as its own line with their number.
/// - A worker takes in a phase just those posts that the others were answered to have posted to it in the phase. It takes them in
///   order and each once. No post is lost, doubled or overtaken, or waits for the next phase (`posts`).
/// - Run the calls that its worker's records tell of a heap in turn on the new heap, phase after phase. They give the answers that
///   the records tell, and the heap that is reported (`heaps`).
/// - Behind each entry the heap is lawful: live blocks never overlap and free blocks never touch (`lawful`).
///
/// Take the text of `tlsf 1 2 64 4`, `a 0 1 8`, `phase`, `f 1 1`. It tells of heap 0 an allocate of 8 bytes in the first phase. In
/// the second it tells a release of that block, by the line `0 take 1 at 0 serial 1 freed`.
pub fn one_history_of_a_raced_trace()
    ensures { (trace : Trace) (text : List ℕ) → IsRaceOutput trace text → HasHistory TellsOverLanes trace text }
{}

/// The same of what [`race_trace_over_queues`](crate::race_trace_over_queues) may write, in the same words.
///
/// Take the text of `tlsf 1 3 64 4`, `a 0 1 8`, `a 0 2 8`, `phase`, `f 2 1`, `f 1 2`. It tells of heap 0 two allocates in the first
/// phase, and two releases in the second. These are in the order of the two lines `0 take 2 at 0 serial 1 freed` and
/// `0 take 1 at 4 serial 2 freed`, which is up to the schedule.
pub fn one_history_of_a_trace_raced_over_queues()
    ensures { (trace : Trace) (text : List ℕ) → IsQueueRaceOutput trace text → HasHistory TellsOverQueues trace text }
{}

/// A trace without `d` lines gives one text when it is raced, whatever the schedule of the threads. All texts that
/// [`race_trace`](crate::race_trace) may write of it are the same.
///
/// Its posts are taken in the last drains of the phases alone (`tlsf_yard_laws::race_without_takes`). So it is for the trace of
/// `tlsf 1 2 64 4`, `a 0 1 8`, `phase`, `f 1 1`.
pub fn trace_without_drains_gives_one_text()
    ensures { RaceGivesOneText }
{}

/// It gives one text too when it is raced over queues, where in each phase each worker takes posts of one other alone. Of more than
/// two workers no post may be refused for a full queue. Of two workers such a trace always does.
///
/// Two workers may post to one, as in `tlsf 1 3 64 4`, `a 0 1 8`, `a 0 2 8`, `phase`, `f 2 1`, `f 1 2`. Then the order in which it
/// takes their posts is up to the schedule (`tlsf_yard_laws::queue_race_without_takes`).
pub fn trace_without_drains_gives_one_text_over_queues()
    ensures one { (trace : Trace) (text other : List ℕ) → HasNoDrain trace → IsUncontendedOutput trace text → IsUncontendedOutput trace other → text ≡ other }

    // Of two workers each text that `race_trace_over_queues` may write is such a one.
    ensures two { (trace : Trace) (text : List ℕ) → trace.header.workers ≤ 2 → IsQueueRaceOutput trace text → IsUncontendedOutput trace text }

    // It is among the texts that `race_trace_over_queues` may write.
    ensures among { (trace : Trace) (text : List ℕ) → IsUncontendedOutput trace text → IsQueueRaceOutput trace text }
{}
