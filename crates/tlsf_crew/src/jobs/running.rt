//! All jobs of a race, whatever the ports of its workers.
ghost use Rattle.std.specs.Prelude.{◌≤◌, map, length, vec_len, IfOk, All};
ghost use Rattle.tlsf_crew.specs.jobs.Job.{KnowsSome};
ghost use Rattle.tlsf_crew.specs.jobs.Parts.{AreScriptsFor, EachJobRan};

use crate::jobs::fan_out::run_all;
use crate::jobs::gate::Gate;
use crate::jobs::job::Job;
use crate::jobs::outcome::Outcome;
use crate::jobs::preparation::{count_all, prepare};
use crate::scripts::scripted::Scripted;
use crate::worker::worker::Worker;
use std::alloc::Global;
use std::marker::{PhantomData, Send, Sync};
use std::sync::Wait;
use std::thread::Threads;
use tlsf_calls::Call;
use tlsf_post::NoMemory;

/// Makes all room, and runs each script in a thread of its own.
pub(crate) fn run_scripts<
    const SLI: u32,
    R: Threads + Wait + Sync,
    P: Scripted<R> + Send + Drop,
    G: Gate,
>(
    rt: &R,
    alloc: Global,
    workers: Vec<Worker<SLI, P>>,
    scripts: Vec<Vec<Call>>,
    gate: &G,
    _jobs: PhantomData<Job<SLI, P>>,
) -> Result<Outcome<SLI, P>, NoMemory>
    requires yard { All (KnowsSome (P.promise SLI).knows) workers.items }
    requires few { length workers.items ≤ 8 }
    requires scripts { AreScriptsFor (vec_len workers) scripts }
    ensures run { IfOk result (λ o. EachJobRan (P.promise SLI) workers.items (map (λ s. s.items) scripts.items) o.records.items o.workers.items) }
{
    let releases = count_all(&scripts);
    let jobs = prepare::<SLI, R, P>(alloc, workers, scripts, &releases)?;
    let returned = Vec::with_capacity(alloc, jobs.len())?;
    let records = Vec::with_capacity(alloc, jobs.len())?;
    let mut outcome = Outcome {
        workers: returned,
        records,
    };
    let done = run_all(rt, jobs, gate)?;
    outcome.add_all(done);
    Ok(outcome)
}
