//! The jobs of a race, each in a thread of its own.
ghost use Rattle.std.specs.Prelude.{◌≡◌, vec_len, vec_capacity, IfOk, OnOk, All};
ghost use Rattle.tlsf_crew.specs.jobs.Parts.{AllDone};

use crate::jobs::gate::Gate;
use crate::jobs::work::Work;
use crate::jobs::work_promise::WorkPromise;
use std::alloc::AllocError;
use std::marker::{PhantomData, Send, Sync};
use std::snapshot::Snapshot;
use std::sync::Wait;
use std::thread;
use std::thread::{Scope, Threads};

/// Does each job in a thread of its own, and puts it back: the last one's starts first, and is joined last. It calls itself,
/// so that each thread's handle stands in a call and no list of them takes memory.
fn fan_out<'s, E, R: Threads + Wait + Sync, W: Work<R> + Send + Drop + 's, G: Gate + Sync>(
    rt: &'s R,
    scope: &Scope<'s, E>,
    jobs: &mut Vec<W>,
    gate: &'s G,
) -> Result<(), AllocError>
    requires ready { All W.is_ready jobs.old.items }
    ensures done { OnOk result (AllDone W.is_done jobs.old.items jobs.new.items) }
    ensures len { OnOk result (vec_len jobs.new ≡ vec_len jobs.old) }
    ensures capacity { vec_capacity jobs.new ≡ vec_capacity jobs.old }
{
    let Some(job) = jobs.pop() else {
        return Ok(());
    };
    let promise: WorkPromise<R, W> = WorkPromise {
        work: Snapshot::of(&job),
        with: PhantomData,
    };
    let child = scope.spawn_with(
        promise,
        move || -> W
            requires { W.is_ready job }
            ensures { W.is_done job result }
        { job.run(rt, gate) },
    )?;
    fan_out(rt, scope, jobs, gate)?;
    jobs.push_reserved(child.join(rt));
    Ok(())
}

/// Does each job in a thread of its own, waits for all, and hands them back in order.
pub(crate) fn run_all<R: Threads + Wait + Sync, W: Work<R> + Send + Drop, G: Gate + Sync>(
    rt: &R,
    jobs: Vec<W>,
    gate: &G,
) -> Result<Vec<W>, AllocError>
    requires ready { All W.is_ready jobs.items }
    ensures done { IfOk result (λ d. AllDone W.is_done jobs.items d.items) }
    ensures len { IfOk result (λ d. vec_len d ≡ vec_len jobs) }
{
    thread::scope(
        thread::scope_env(),
        rt,
        move |scope| -> Result<Vec<W>, AllocError>
            requires { All W.is_ready jobs.items }
            ensures { IfOk result (λ d. AllDone W.is_done jobs.items d.items × (vec_len d ≡ vec_len jobs)) }
        {
            let mut done = jobs;
            fan_out(rt, scope, &mut done, gate)?;
            Ok(done)
        },
    )
}
