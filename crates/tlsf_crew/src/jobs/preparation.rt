//! The jobs of a race. All room is made here, before a thread starts.
ghost use Rattle.std.specs.Prelude.{◌≡◌, ℕ, ◌+◌, ◌^◌, ◌<◌, ◌≤◌, length, map, slice_index, vec_len, IfOk, All};
ghost use Rattle.tlsf_crew.specs.model.Sums.{sum_of};
ghost use Rattle.tlsf_crew.specs.scripts.EntryRoom.{releases_of};
ghost use Rattle.tlsf_crew.specs.scripts.Scripts.{script_of};
ghost use Rattle.tlsf_crew.specs.jobs.Job.{KnowsSome};
ghost use Rattle.tlsf_crew.specs.jobs.Parts.{AreScriptsFor, IsPrepared};

use crate::jobs::job::Job;
use crate::scripts::scripted::Scripted;
use crate::worker::worker::Worker;
use std::alloc::Global;
use tlsf_calls::Call;
use tlsf_post::NoMemory;

/// How many calls of a script are releases.
fn releases_of(script: &[Call]) -> u32
    requires { length script.now < 2 ^ 32 }
    ensures { result ≡ releases_of script.now }
{
    script
        .iter()
        .filter(|call| matches!(call, Call::Release { .. }))
        .count() as u32
}

/// How many calls of each script are releases.
pub(crate) fn count_all(scripts: &[Vec<Call>]) -> [u32; 8]
    requires few { length scripts.now ≤ 8 }
    requires short { All (λ s. vec_len s < 2 ^ 32) scripts.now }
    ensures { (i : ℕ) → i < 8 → slice_index result i ≡ releases_of (script_of (map (λ s. s.items) scripts.now) i) }
{
    let mut counts = [0; 8];
    for i in 0..scripts.len() {
        counts[i] = releases_of(&scripts[i]);
    }
    counts
}

/// Room for the entries of a worker: one for each call, one for each post that it may take, and one for the last drain.
fn room_with_limits(limits: &[u64; 8], calls: usize) -> usize
    requires short { calls < 2 ^ 32 }
    requires few { (i : ℕ) → i < 8 → slice_index limits.now i ≤ 2 ^ 36 }
    ensures { result ≡ calls + sum_of limits.now + 1 }
{
    let mut room = calls + 1;
    for i in 0..8 {
        room += limits[i] as usize;
    }
    room
}

/// A worker with its script, and the room for its record.
fn make_job<const SLI: u32, R, P: Scripted<R> + Drop>(
    alloc: Global,
    worker: Worker<SLI, P>,
    script: Vec<Call>,
    releases: &[u32; 8],
) -> Result<Job<SLI, P>, NoMemory>
    requires yard { KnowsSome (P.promise SLI).knows worker }
    requires short { vec_len script < 2 ^ 32 }
    ensures { IfOk result (λ job. (job.worker ≡ worker) × (job.script ≡ script) × IsPrepared (P.promise SLI) releases.now job) }
{
    let limits = worker.ports.limits(releases);
    let made = Vec::with_capacity(alloc, script.len())?;
    let entries = Vec::with_capacity(alloc, room_with_limits(&limits, script.len()))?;
    Ok(Job {
        worker,
        script,
        limits,
        made,
        entries,
    })
}

/// Pairs each worker with its script, in order, and makes the room for its record.
pub(crate) fn prepare<const SLI: u32, R, P: Scripted<R> + Drop>(
    alloc: Global,
    mut workers: Vec<Worker<SLI, P>>,
    mut scripts: Vec<Vec<Call>>,
    releases: &[u32; 8],
) -> Result<Vec<Job<SLI, P>>, NoMemory>
    requires yard { All (KnowsSome (P.promise SLI).knows) workers.items }
    requires scripts { AreScriptsFor (vec_len workers) scripts }
    ensures workers { IfOk result (λ jobs. map (λ j. j.worker) jobs.items ≡ workers.items) }
    ensures scripts { IfOk result (λ jobs. map (λ j. j.script) jobs.items ≡ scripts.items) }
    ensures ready { IfOk result (λ jobs. All (IsPrepared (P.promise SLI) releases.now) jobs.items) }
    ensures len { IfOk result (λ jobs. vec_len jobs ≡ vec_len workers) }
{
    let mut jobs = Vec::with_capacity(alloc, workers.len())?;
    while let Some(worker) = workers.pop() {
        let Some(script) = scripts.pop() else {
            unreachable!()
        };
        let job = make_job::<SLI, R, P>(alloc, worker, script, releases)?;
        jobs.push_reserved(job);
    }
    jobs.reverse();
    Ok(jobs)
}
