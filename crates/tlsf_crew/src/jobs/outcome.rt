ghost use Rattle.std.specs.Prelude.{◌≡◌, ◌≤◌, [], map, vec_len, vec_capacity};

use crate::jobs::job::Job;
use crate::queues::queues::Queues;
use crate::worker::lanes::Lanes;
use crate::worker::worker::Worker;
use tlsf_calls::Entry;

/// The result of a race of workers of this level, over lanes where nothing else is said.
#[derive(Drop)]
pub struct Outcome<const SLI: u32, P = Lanes> {
    /// The whole yard, in order. No post waits for any of its workers.
    pub workers: Vec<Worker<SLI, P>>,
    /// For each worker what it called and was answered, in its order, the last drain included.
    pub records: Vec<Vec<Entry>>,
}

/// The result of a race over queues.
pub type QueueOutcome<const SLI: u32> = Outcome<SLI, Queues>;

impl<const SLI: u32, P: Drop> Outcome<SLI, P> {
    /// Adds what each worker's thread handed back.
    pub(crate) fn add_all(&mut self, done: Vec<Job<SLI, P>>)
        requires empty { (self.old.workers.items ≡ []) × (self.old.records.items ≡ []) }
        requires room { (vec_len done ≤ vec_capacity self.old.workers) × (vec_len done ≤ vec_capacity self.old.records) }
        ensures parts { (self.new.workers.items ≡ map (λ d. d.worker) done.items) × (self.new.records.items ≡ map (λ d. d.entries) done.items) }
    {
        for each in done {
            self.workers.push_reserved(each.worker);
            self.records.push_reserved(each.entries);
        }
    }
}
