ghost use Rattle.std.specs.Prelude.{◌≡◌, ℕ, List};
ghost use Rattle.tlsf_calls.specs.declared.event.Event.{Event};
ghost use Rattle.tlsf_crew.specs.declared.worker.lanes.Lanes.{Lanes};
ghost use Rattle.tlsf_crew.specs.declared.worker.worker.Worker.{Worker};
ghost use Rattle.tlsf_crew.specs.lanes.Yard.{IsYard, world_of};
ghost use Rattle.tlsf_crew.specs.model.World.{replies};
ghost use Rattle.tlsf_crew.specs.model.Opening.{opened_world};
ghost use Rattle.tlsf_yard_laws.specs.FairRuns.{IsFairRun, NoneStale, WaitLive, fair_entries, fair_events};

/// A list of events that uses each name only from its making to its release is never answered `Stale`, in any yard over lanes.
///
/// Let nothing wait at the start, and each target be made by an earlier event and not yet released or posted. Then no answer that
/// [`tlsf_crew::replay_events`] gives is `Stale`, and each post that waits in the end names a live block. So no block is given again
/// while a post of it waits.
///
/// ```text
/// 0 Allocate(8): Made(x), 1 Release(x): Posted, 0 Take(1): Took(x, Ok), 0 Drain(8): Drained(1)
/// ```
pub fn no_fair_run_is_stale()
    ensures { (sli : ℕ) (workers : List (Worker sli Lanes)) (events : List Event) → IsYard workers → IsFairRun (world_of workers) events →
        let r = replies (world_of workers) events in NoneStale r.entries × WaitLive r.world }
{}

/// There is a run that is fair, so [`no_fair_run_is_stale`] speaks of some. In two new heaps of 64 words, with lanes of 4 posts, it
/// is this one.
///
/// ```text
/// 0 Allocate(8): Made(x)        worker 1 learns x, and uses it no more once it has released it
/// 1 Release(x): Posted
/// 0 Take(1): Took(x, Ok)
/// 0 Drain(8): Drained(1)
/// ```
pub fn some_run_is_fair()
    // Each name is used only from the event that makes it to its release.
    ensures fair { IsFairRun (opened_world {sli = 4} 2 64 4) fair_events }

    // Its answers.
    ensures told { (replies (opened_world {sli = 4} 2 64 4) fair_events).entries ≡ fair_entries }
{}
