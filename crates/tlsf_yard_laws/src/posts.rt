ghost use Rattle.std.specs.Prelude.{ℕ};
ghost use Rattle.tlsf_yard_laws.specs.Carriers.{Carrier};
ghost use Rattle.tlsf_yard_laws.specs.Posts.{NoPostIsStale};

/// Programs that give each block back once never see a stale post, over lanes and over queues, whatever the schedule of the threads.
///
/// Let nothing wait before a race, and each name that a worker posts be live before it. Let no name be given back twice, freed by
/// its owner or posted by another, in all records together. Then no post that is taken is answered Stale: its block was live.
///
/// ```text
/// worker 1: Release(x) of worker 0's block x: Posted; nobody else gives x back
/// worker 0: Take(1): Took(x, Ok), before or behind any calls of its own
/// ```
pub fn no_post_is_stale()
    ensures { (sli : ℕ) (carrier : Carrier) → NoPostIsStale sli carrier }
{}
