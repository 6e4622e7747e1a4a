ghost use Rattle.tlsf_crew.specs.jobs.Job.{IsReady, IsDone};

use crate::jobs::gate::Gate;
use crate::jobs::work::Work;
use crate::scripts::executor::run_call;
use crate::scripts::journal::Journal;
use crate::scripts::scripted::Scripted;
use crate::worker::lanes::Lanes;
use crate::worker::worker::Worker;
use tlsf_calls::{Call, Entry};
use tlsf_heap::Name;

/// All that the thread of one worker of a race is given, and hands back.
#[derive(Drop)]
pub(crate) struct Job<const SLI: u32, P = Lanes> {
    pub(crate) worker: Worker<SLI, P>,
    pub(crate) script: Vec<Call>,
    // How many posts it may still take of each source.
    pub(crate) limits: [u64; 8],
    // The names that its calls make, with the room for them.
    pub(crate) made: Vec<Option<Name>>,
    // Its record, with the room for it.
    pub(crate) entries: Vec<Entry>,
}

impl<const SLI: u32, R, P: Scripted<R>> Work<R> for Job<SLI, P> {
    ghost is_ready = { λ job. IsReady (P.promise SLI) job };

    ghost is_done = { λ job done. IsDone (P.promise SLI) job done };

    /// Runs the script. The gate is passed before each call, and once after the last.
    fn run<G: Gate>(self, rt: &R, gate: &G) -> Job<SLI, P> {
        P::laws();
        let Job {
            mut worker,
            script,
            limits,
            mut made,
            entries,
        } = self;
        let mut journal = Journal { limits, entries };
        let mut index = 0;
        for call in script.iter() {
            gate.pass(worker.id, index);
            run_call(&mut worker, rt, &mut journal, *call, &mut made);
            index += 1;
        }
        gate.pass(worker.id, index);
        Job {
            worker,
            script,
            limits: journal.limits,
            made,
            entries: journal.entries,
        }
    }
}
