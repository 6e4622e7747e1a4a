ghost use Rattle.std.specs.Prelude.{length, ◌≡◌, ◌↔◌, ℕ, List, Some, slice_get};
ghost use Rattle.tlsf_crew.specs.declared.worker.worker.Worker.{Worker};
ghost use Rattle.tlsf_crew.specs.declared.worker.lanes.Lanes.{Lanes};
ghost use Rattle.tlsf_crew.specs.worker.Workers.{IsOther, heap_of, id_of, IsHeapOf};
ghost use Rattle.tlsf_crew.specs.lanes.LaneWorkers.{HasPost, HasTake};
ghost use Rattle.tlsf_crew.specs.lanes.Yard.{IsYard};

/// In a whole yard each worker has a lane to and from each other worker and none else. So [`crate::Worker::release`] and
/// [`crate::Worker::take`] answer `Stranger` exactly where a number is the worker's own or that of no worker.
///
/// ```
/// let mut workers = open_yard::<4>(alloc, 3, 1024, 8)?;
/// let from_other = workers[1].take(2); // Ok(None): that lane is empty
/// let from_own = workers[1].take(1);   // Err(CrewRefusal::Stranger), as for 3 and above
/// ```
pub fn lanes_join_the_yard()
    // Worker i has the number i, and a lawful heap of that number.
    ensures ids { (sli : ℕ) (ws : List (Worker sli Lanes)) (i : ℕ) (a : Worker sli Lanes) → IsYard ws → slice_get ws i ≡ Some a → id_of a ≡ i }
    ensures heaps { (sli : ℕ) (ws : List (Worker sli Lanes)) (i : ℕ) (a : Worker sli Lanes) → IsYard ws → slice_get ws i ≡ Some a → IsHeapOf i (heap_of a) }

    // Its lanes.
    ensures to { (sli : ℕ) (ws : List (Worker sli Lanes)) (i j : ℕ) (a : Worker sli Lanes) → IsYard ws → slice_get ws i ≡ Some a → (HasPost a j ↔ IsOther (length ws) i j) }
    ensures from { (sli : ℕ) (ws : List (Worker sli Lanes)) (i j : ℕ) (a : Worker sli Lanes) → IsYard ws → slice_get ws i ≡ Some a → (HasTake a j ↔ IsOther (length ws) i j) }
{}
