ghost use Rattle.std.specs.Prelude.{◌≡◌, ◌↔◌, ℕ, List, length, Some, slice_get, slice_set};
ghost use Rattle.tlsf_crew.specs.worker.Workers.{IsOther, IsHeapOf, heap_of, id_of};
ghost use Rattle.tlsf_crew.specs.declared.worker.worker.Worker.{Worker};
ghost use Rattle.tlsf_crew.specs.declared.queues.queues.Queues.{Queues};
ghost use Rattle.tlsf_crew.specs.queues.QueueWorkers.{HasQueueEnd, KeepsQueueYards};
ghost use Rattle.tlsf_crew.specs.queues.QueueYard.{IsQueueYard};

/// In a whole yard over queues each worker has an end to the queue of each other worker and none else. So
/// [`crate::QueueWorker::post`] answers `Stranger` exactly where a name is of the heap of no worker. A worker stays one of
/// its yard by each of its calls.
///
/// ```
/// let mut workers = open_queue_yard(alloc, 3, 1024, 8)?;
/// let posted = workers[1].post(rt, name); // Err(CrewRefusal::Stranger) where `name.heap` is 3 or above
/// ```
pub fn queues_join_the_yard()
    // Worker i has the number i, and a lawful heap of that number.
    ensures ids { (sli : ℕ) (ws : List (Worker sli Queues)) (i : ℕ) (a : Worker sli Queues) → IsQueueYard ws → slice_get ws i ≡ Some a → id_of a ≡ i }
    ensures heaps { (sli : ℕ) (ws : List (Worker sli Queues)) (i : ℕ) (a : Worker sli Queues) → IsQueueYard ws → slice_get ws i ≡ Some a → IsHeapOf i (heap_of a) }

    // Its ends.
    ensures to { (sli : ℕ) (ws : List (Worker sli Queues)) (i j : ℕ) (a : Worker sli Queues) → IsQueueYard ws → slice_get ws i ≡ Some a → (HasQueueEnd a j ↔ IsOther (length ws) i j) }

    // Each call's clauses `rest` and `works` say enough of a worker to keep the yard whole.
    ensures kept { (sli : ℕ) (ws : List (Worker sli Queues)) (i : ℕ) (a v : Worker sli Queues) → IsQueueYard ws → slice_get ws i ≡ Some a → KeepsQueueYards a v → IsQueueYard (slice_set ws i v) }
{}
