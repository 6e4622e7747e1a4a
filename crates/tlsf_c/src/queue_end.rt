//! The owner's end of a queue, with the posters' ends that nobody was given yet.
ghost use Rattle.std.specs.Prelude.{◌≡◌, ◌⊎◌, ◌+◌, ◌<◌, ◌≤◌, List, [], ◌∷◌, ◌++◌, map, length, None, All, IfOk, IfSome, IfErr, MatchResult};
ghost use Rattle.tlsf_post.specs.declared.poster_end.PosterEnd.{PosterEnd};
ghost use Rattle.tlsf_post.specs.Mailboxes.{put_by, owner_of, out_of, most_of, got_by, known_to, KeepsPoster, IsAllTaken, IsWhole};
ghost use Rattle.tlsf_c.specs.Ends.{idle_poster, left_in_end, HasGiven, HasPut, WasFull, StaysOwner};
ghost use Rattle.tlsf_c.specs.declared.call_fault.CallFault.TheVariants.{Full, Empty, Busy};

use crate::any_end::AnyEnd;
use crate::call_fault::CallFault;
use std::alloc::Global;
use tlsf_heap::Name;
use tlsf_post::{NoMemory, OwnerEnd, Post, PosterEnd, mailbox};

/// The owner's end of a queue, with the posters' ends that nobody was given yet. Each lies in the box that its handle gets.
#[cycle(ends)]
#[derive(Drop)]
pub struct QueueEnd {
    pub owner: OwnerEnd,
    pub left: Vec<Box<AnyEnd, Global>, Global>,
}

impl QueueEnd {
    /// Opens a queue for a number of posters, 1 to 1,024, which holds up to `capacity` names, 1 to 1,024.
    pub fn open(alloc: Global, posters: u32, capacity: u32) -> Result<QueueEnd, NoMemory>
        requires posters { (0 < posters) × (posters ≤ 1024) }
        requires capacity { (0 < capacity) × (capacity ≤ 1024) }
        ensures ends { IfOk result (λ q. (ends : List PosterEnd) × (left_in_end q ≡ map idle_poster ends) × IsWhole q.owner ends × All (λ p. put_by p ≡ []) ends) }
        ensures owner { IfOk result (λ q. (owner_of q.owner ≡ 0) × (out_of q.owner ≡ posters + 1) × (most_of q.owner ≡ capacity)
            × (got_by q.owner ≡ []) × (known_to q.owner ≡ [])) }
    {
        let (owner, ends) = mailbox(alloc, 0, posters + 1, capacity)?;
        let left = boxed(alloc, ends)?;
        Ok(QueueEnd { owner, left })
    }
}

/// Each end in a box of its own, in the same order.
fn boxed(alloc: Global, ends: Vec<PosterEnd>) -> Result<Vec<Box<AnyEnd, Global>>, NoMemory>
    ensures { IfOk result (λ boxes. map (λ b. b.value) boxes.items ≡ map idle_poster ends.items) }
{
    let mut boxes = Vec::with_capacity(alloc, ends.len())?;
    for end in ends {
        let Ok(owned) = Box::new(alloc, AnyEnd::Poster { is_idle: true, end }) else {
            return Err(NoMemory);
        };
        boxes.push_reserved(owned);
    }
    Ok(boxes)
}

/// Puts a name by one attempt. It is Busy where another thread was half through a step, as far as it saw.
pub fn put_once(end: &mut PosterEnd, name: Name) -> Result<(), CallFault>
    ensures queue { KeepsPoster end.old end.new }
    ensures put { MatchResult result (λ _. HasPut end.old end.new name) (λ why. (put_by end.new ≡ put_by end.old) × ((why ≡ Full) ⊎ (why ≡ Busy))) }
    ensures full { IfErr result (λ why. why ≡ Full → WasFull end.old) }
{
    if end.try_put(name) {
        return Ok(());
    }
    if end.is_full() {
        Err(CallFault::Full)
    } else {
        Err(CallFault::Busy)
    }
}

/// Takes a post by one attempt. It is Busy where another thread was half through putting it, as far as it saw.
pub fn take_once(end: &mut QueueEnd) -> Result<Post, CallFault>
    ensures queue { StaysOwner end.old end.new }
    ensures taken { MatchResult result (λ p. got_by end.new.owner ≡ got_by end.old.owner ++ p ∷ []) (λ why. (got_by end.new.owner ≡ got_by end.old.owner) × ((why ≡ Empty) ⊎ (why ≡ Busy))) }
    ensures empty { IfErr result (λ why. why ≡ Empty → IsAllTaken end.new.owner) }
{
    if let Some(post) = end.owner.try_take() {
        return Ok(post);
    }
    if end.owner.is_empty() {
        Err(CallFault::Empty)
    } else {
        Err(CallFault::Busy)
    }
}

/// Gives the last of the posters' ends that nobody was given yet.
pub fn give_one(end: &mut QueueEnd) -> Option<Box<AnyEnd, Global>>
    ensures owner { end.new.owner ≡ end.old.owner }
    ensures none { result ≡ None → (left_in_end end.old ≡ []) × (left_in_end end.new ≡ []) }
    ensures empty { length (left_in_end end.old) ≡ 0 → result ≡ None }
    ensures gives { IfSome result (λ b. HasGiven end.old end.new b.value) }
{
    end.left.pop()
}
