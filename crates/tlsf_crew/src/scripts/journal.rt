//! The record of a worker, while it is written.
ghost use Rattle.std.specs.Prelude.{◌≡◌, ◌<◌, [], vec_capacity};
ghost use Rattle.tlsf_crew.specs.scripts.Journals.{IsAdmitted, HasTakePlaces, EntersTake};

use crate::worker::notes::Notes;
use std::alloc::Global;
use std::mem;
use tlsf_calls::{Call, Entry, Reply, Took};

/// The entries of a worker's calls, and how many posts these may still take from each source, so that the entries have room for
/// them.
#[derive(Drop)]
pub(crate) struct Journal {
    pub(crate) limits: [u64; 8],
    pub(crate) entries: Vec<Entry>,
}

impl Journal {
    /// Goes on with these entries, which it has until they are given back. None are left there.
    pub(crate) fn resume(alloc: Global, told: &mut Vec<Entry>, limits: [u64; 8]) -> Journal
        ensures journal { (result.limits ≡ limits) × (result.entries ≡ told.old) }
        ensures left { told.new.items ≡ [] }
    {
        Journal {
            limits,
            entries: mem::replace(told, Vec::new(alloc)),
        }
    }
}

impl Notes for Journal {
    ghost admitted = { λ journal source. IsAdmitted journal source };

    ghost has_room = { λ journal. HasTakePlaces journal };

    ghost most = { λ journal. vec_capacity journal.entries };

    ghost noted = { EntersTake };

    fn admits(&self, source: usize, wanted: usize) -> usize {
        if source >= self.limits.len() {
            return 0;
        }
        self.limits[source].min(wanted as u64) as usize
    }

    /// Adds the entry of the take, and counts the limit down.
    fn note(&mut self, at: u32, source: usize, sender: Option<u32>, took: Took) {
        self.limits[source] -= 1;
        let from = match sender {
            Some(from) => from,
            None => source as u32,
        };
        self.entries.push_reserved(Entry {
            worker: at,
            call: Call::Take { from },
            reply: Reply::Took(took),
        });
    }
}
