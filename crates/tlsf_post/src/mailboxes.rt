ghost use Rattle.std.specs.Prelude.{◌≡◌, ◌⊎◌, ◌+◌, ◌-◌, ◌<◌, ◌≤◌, [], ◌++◌, map, IfOk, OnOk, All, vec_len, vec_capacity};
ghost use Rattle.std.specs.Arc.{arc_value};
ghost use Rattle.crossbeam_queue.specs.Passes.{view, ruled_capacity, IsPassOf};
ghost use Rattle.tlsf_post.specs.Rule.{owner_view, plan_for};
ghost use Rattle.tlsf_post.specs.Mailboxes.{number_of, put_by, owner_of, out_of, most_of, got_by, known_to, IsWhole};
ghost use Rattle.tlsf_post.specs.Rounds.{run, IsFreshAt};

use crate::owner_end::OwnerEnd;
use crate::post::Post;
use crate::poster_end::PosterEnd;
use crate::rule::{OneSlot, OneWorker, OwnNumber, OwnerOn, PosterOut, Queue};
use crate::view::View;
use crossbeam_queue::Pass;
use std::alloc::Global;
use std::sync::Arc;
use tlsf_words::NoMemory;

/// Opens the mailbox of worker `owner` of `n` workers, 1 to 1,025, which holds up to `capacity` posts, 1 to 1,024. It
/// answers the owner's end, and an end for each other worker, in rising number. It fails only for want of memory, which
/// no later call takes.
///
/// - `whole`: they are all ends of one mailbox.
/// - `owner`: the owner's end has the owner's number, and nothing was taken. There is an end for each of `n` workers but
///   the owner, and no more than `capacity` posts wait.
/// - `fresh`: nothing was put.
///
/// ```
/// let (mut owner_end, mut posters) = mailbox(alloc, 0, 3, 16)?;     // posters 1 and 2
/// let put = posters[0].put(rt, name);                               // Ok(())
/// let came = owner_end.take(rt);                                    // Some(Post { from: 1, name })
/// ```
pub fn mailbox(
    alloc: Global,
    owner: u32,
    n: u32,
    capacity: u32,
) -> Result<(OwnerEnd, Vec<PosterEnd>), NoMemory>
    requires count { (owner < n) × (n ≤ 1025) }
    requires capacity { (0 < capacity) × (capacity ≤ 1024) }
    ensures whole { IfOk result (λ r. IsWhole r.0 r.1.items) }
    ensures owner { IfOk result (λ r. (owner_of r.0 ≡ owner) × (out_of r.0 ≡ n) × (most_of r.0 ≡ capacity)
        × (got_by r.0 ≡ []) × (known_to r.0 ≡ [])) }
    ensures fresh { IfOk result (λ r. All (λ p. put_by p ≡ []) r.1.items) }
{
    let mut posters = Vec::with_capacity(alloc, n as usize - 1)?;
    let (queue, mut pass) = Queue::ruled(alloc, capacity as usize)?;
    lay_out(&queue, &mut pass, owner, n, capacity);
    let Ok(queue) = Arc::new(alloc, queue) else {
        return Err(NoMemory);
    };
    send_out(&queue, &mut pass, 0, owner, &mut posters)?;
    queue.another::<OwnNumber>(&mut pass);
    send_out(&queue, &mut pass, owner + 1, n, &mut posters)?;
    let end = OwnerEnd {
        queue,
        pass,
        number: owner,
    };
    Ok((end, posters))
}

/// Tells the pass what the mailbox is laid out for. A rule knows no number of the program, so it counts: each step is one load.
fn lay_out(queue: &Queue, pass: &mut Pass<Post, View>, owner: u32, n: u32, capacity: u32)
    requires pass { IsPassOf queue.now pass.old × (view pass.old ≡ owner_view (plan_for 0 0 0) 0 [] []) }
    ensures pass { IsPassOf queue.now pass.new × (view pass.new ≡ owner_view (plan_for owner n capacity) 0 [] []) }
{
    for _k in 0..owner {
        queue.another::<OwnerOn>(pass);
    }
    for _k in 0..n {
        queue.another::<OneWorker>(pass);
    }
    for _k in 0..capacity {
        queue.another::<OneSlot>(pass);
    }
}

/// Makes the posters' ends of the numbers from `from` up to `to`.
fn send_out(
    queue: &Arc<Queue, Global>,
    pass: &mut Pass<Post, View>,
    from: u32,
    to: u32,
    posters: &mut Vec<PosterEnd>,
) -> Result<(), NoMemory>
    requires pass { IsPassOf (arc_value queue.now) pass.old × (view pass.old ≡ owner_view (view pass.old).plan from [] []) × (from ≤ to) }
    requires room { (view pass.old).plan.capacity ≡ ruled_capacity (arc_value queue.now) }
    requires owned { (view pass.old).plan.owner < (view pass.old).plan.workers }
    requires numbers { (to ≤ (view pass.old).plan.workers) × ((to ≤ (view pass.old).plan.owner) ⊎ ((view pass.old).plan.owner < from)) }
    requires posters { All (IsFreshAt pass.old) posters.old.items }
    requires places { vec_len posters.old + (to - from) ≤ vec_capacity posters.old }
    ensures pass { OnOk result (IsPassOf (arc_value queue.now) pass.new × (pass.new.table_id ≡ pass.old.table_id)
        × (view pass.new ≡ owner_view (view pass.old).plan to [] [])) }
    ensures posters { OnOk result (All (IsFreshAt pass.old) posters.new.items) }
    ensures numbers { OnOk result (map number_of posters.new.items ≡ map number_of posters.old.items ++ run from (to - from)) }
    ensures places { OnOk result ((vec_capacity posters.new ≡ vec_capacity posters.old) × (vec_len posters.new ≡ vec_len posters.old + (to - from))) }
{
    for number in from..to {
        let queue = Arc::try_clone(queue)?;
        let pass = queue.another::<PosterOut>(pass);
        posters.push_reserved(PosterEnd {
            queue,
            pass,
            from: number,
        });
    }
    Ok(())
}
