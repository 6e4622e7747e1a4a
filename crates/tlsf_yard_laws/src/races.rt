ghost use Rattle.std.specs.Prelude.{ℕ};
ghost use Rattle.tlsf_class.specs.Classes.{IsLevel};
ghost use Rattle.tlsf_yard_laws.specs.Carriers.{Carrier};
ghost use Rattle.tlsf_yard_laws.specs.Races.{NewHasNoPast, RaceAddsToPast, RaceHoldsWhatIsLive, RaceKeepsBytes, RaceMixedSizesServe, RaceMixedSizesSuffice, ReplayAddsToPast};

/// The past of a heap is one list of calls, through replays and races: what its own worker was told since it was new. A yard over
/// lanes has both, one over queues races alone.
///
/// So a law of this module holds for a race after any earlier races and lists of events.
///
/// ```text
/// replay:  0 Allocate(8): Made(x)           the past of heap 0: Allocate(8)
/// race:    0 Take(1): Took(x, Ok)           the past of heap 0: Allocate(8), Release(x)
/// ```
pub fn past_goes_on()
    ensures new { (sli : ℕ) → NewHasNoPast sli }
    ensures replay { (sli : ℕ) → ReplayAddsToPast sli }
    ensures race { (sli : ℕ) (carrier : Carrier) → RaceAddsToPast sli carrier }
{}

/// How large the heap of a worker must be, so that none of its requests in a race is ever refused for want of room. It holds
/// whatever the schedule of the threads, over lanes and over queues.
///
/// A worker counts for itself. It counts one more for each allocate that was accepted. It counts one fewer for each release of its
/// own, and for each post that it took that its heap accepted. Let it have fewer than `most` blocks before each request, and ask
/// for at most `len` bytes. Then a heap of `tlsf_pool::mixed_sizes_suffice`' words for these two has room. Where it has `most`, it
/// drains first.
///
/// ```text
/// worker 0: Allocate(8), Allocate(8), Drain(8), and again where the drain left it fewer than two, in a heap for two blocks
/// worker 1: releases blocks of worker 0 as it learns their names; none of worker 0's requests is answered NoFit
/// ```
pub fn race_never_refuses()
    ensures room { (sli : ℕ) (carrier : Carrier) → IsLevel sli → RaceMixedSizesSuffice sli carrier }
    ensures served { (sli : ℕ) (carrier : Carrier) → IsLevel sli → RaceMixedSizesServe sli carrier }

    // As many blocks are live after the race as the worker was told to be held.
    ensures held { (sli : ℕ) (carrier : Carrier) → RaceHoldsWhatIsLive sli carrier }
{}

/// A worker's blocks keep their bytes in a race, over lanes and over queues, whatever the threads of the others do.
///
/// The bytes under each name of a heap are told by the calls that its own worker's record tells, and by their answers.
///
/// ```text
/// worker 0 has 07 in x, worker 1 releases x: x still has 07 for worker 0, until it takes that post
/// ```
pub fn race_keeps_bytes()
    ensures { (sli : ℕ) (carrier : Carrier) → IsLevel sli → RaceKeepsBytes sli carrier }
{}
