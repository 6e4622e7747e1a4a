//! C's calls of a queue: several threads put names in, and the owner of their heap takes them out.
ghost use Rattle.std.specs.Prelude.{◌≡◌, ◌⊎◌, true, false, ◌<◌, ◌≤◌, [], ◌∷◌, ◌++◌, List, length};
ghost use Rattle.tlsf_post.specs.Mailboxes.{got_by, IsAllTaken};
ghost use Rattle.tlsf_post.specs.declared.post.Post.{Post};
ghost use Rattle.tlsf_c.specs.Handles.{end_serves, serves, ClosesEnd};
ghost use Rattle.tlsf_c.specs.Drains.{Drains, DrainsEnd};
ghost use Rattle.tlsf_c.specs.Names.{name_of};
ghost use Rattle.tlsf_c.specs.Queues.{queue_in, owner_in, left_in, got_in, end_in, put_in, holds_queue, holds_poster, AllTaken, KeepsQueue, KeepsEnd, IsNew, Puts, SawFull, Gives, HasGot, Gets, OnPoster, OnQueue};
ghost use Rattle.tlsf_c.specs.Refusals.{in_use, full, empty, busy};
ghost use Rattle.tlsf_c.specs.Serving.{Opens};
ghost use Rattle.tlsf_c.specs.Ends.{StaysOwner};

use crate::any_end::AnyEnd;
use crate::call_fault::CallFault;
use crate::end_slot::{EndSlot, on_end};
use crate::heap_slot::HeapSlot;
use crate::lane_calls::release_posts;
use crate::names::BlockName;
use crate::queue_end::{QueueEnd, give_one, put_once, take_once};
use std::alloc::Global;

/// Opens a queue for `posters` posters, 1 to 1,024, and up to `capacity` names, 1 to 1,024, in a closed handle, its owner's end.
///
/// Refused as InUse where the handle is open. Otherwise as BadSize where a number is out of range. Otherwise as NoMemory where the
/// memory was not granted. No later call on the queue takes memory.
///
/// ```text
/// tlsf_queue_open(&queue, 3, 64) == TLSF_OK
/// ```
#[unsafe(no_mangle)]
pub extern "C" fn tlsf_queue_open(
    alloc: Global,
    queue: &mut EndSlot,
    posters: u32,
    capacity: u32,
) -> u32
    ensures refusals { Opens queue.old.is_open ((0 < posters) × (posters ≤ 1024) × (0 < capacity) × (capacity ≤ 1024)) queue.old queue.new result }
    ensures opens { result ≡ 0 → (end_serves queue.new ≡ true) × (holds_queue queue.new ≡ true) }
    ensures queue { result ≡ 0 → IsNew (owner_in queue.new) (left_in queue.new) posters capacity }
{
    if queue.is_open {
        return CallFault::InUse.number();
    }
    if posters == 0 || posters > 1024 || capacity == 0 || capacity > 1024 {
        return CallFault::BadSize.number();
    }
    let Ok(end) = QueueEnd::open(alloc, posters, capacity) else {
        return CallFault::NoMemory.number();
    };
    let Ok(owned) = Box::new(alloc, AnyEnd::Queue { is_idle: true, end }) else {
        return CallFault::NoMemory.number();
    };
    queue.put_in(owned);
    0
}

/// Gives one of the queue's posters' ends to a closed handle. It may go to another thread, and stays open when the owner's end closes.
///
/// Refused as Closed where the queue's handle isn't open. Otherwise as OtherKind where it holds another kind of end. Otherwise as
/// InUse where the poster's is open. Otherwise as Empty where all were given.
///
/// ```text
/// tlsf_poster_open(&queue, &poster) == TLSF_OK
/// ```
#[unsafe(no_mangle)]
pub extern "C" fn tlsf_poster_open(queue: &mut EndSlot, poster: &mut EndSlot) -> u32
    ensures queue { OnQueue queue.old queue.new result ((poster.old.is_open ≡ true → (result ≡ in_use) × (queue.new ≡ queue.old))
        × (poster.old.is_open ≡ false → length (left_in queue.old) ≡ 0 → (result ≡ empty) × (left_in queue.new ≡ []))) }
    ensures owner { owner_in queue.new ≡ owner_in queue.old }
    ensures succeeds { end_serves queue.old ≡ true → poster.old.is_open ≡ false → 0 < length (left_in queue.old) → result ≡ 0 }
    ensures refused { ¬ (result ≡ 0) → poster.new ≡ poster.old }
    ensures given { result ≡ 0 → (poster.new.is_open ≡ true) × Gives (queue_in queue.old) (queue_in queue.new) poster.new.inner.value }
{
    if !queue.serves() {
        return CallFault::Closed.refusal();
    }
    if poster.is_open {
        return if queue.inner.lend().is_queue() {
            CallFault::InUse.number()
        } else {
            CallFault::OtherKind.number()
        };
    }
    let given = on_end!(queue, Queue, end => give_one(end));
    match given {
        Some(boxed) => {
            poster.put_in(boxed);
            0
        }
        None => CallFault::Empty.number(),
    }
}

/// Closes a poster's end. It isn't given again.
///
/// Refused as Closed where the handle isn't open. Otherwise as OtherKind where it holds another kind of end.
///
/// ```text
/// tlsf_poster_close(&poster) == TLSF_OK
/// ```
#[unsafe(no_mangle)]
pub extern "C" fn tlsf_poster_close(alloc: Global, poster: &mut EndSlot) -> u32
    ensures { ClosesEnd (holds_poster poster.old) poster.old poster.new result }
{
    if !poster.serves() {
        return CallFault::Closed.number();
    }
    if !poster.inner.lend().is_poster() {
        return CallFault::OtherKind.number();
    }
    poster.close(alloc);
    0
}

/// Closes the owner's end of a queue. Posters' ends that were given stay open.
///
/// Refused as Closed where the handle isn't open. Otherwise as OtherKind where it holds another kind of end.
///
/// ```text
/// tlsf_queue_close(&queue) == TLSF_OK
/// ```
#[unsafe(no_mangle)]
pub extern "C" fn tlsf_queue_close(alloc: Global, queue: &mut EndSlot) -> u32
    ensures { ClosesEnd (holds_queue queue.old) queue.old queue.new result }
{
    if !queue.serves() {
        return CallFault::Closed.number();
    }
    if !queue.inner.lend().is_queue() {
        return CallFault::OtherKind.number();
    }
    queue.close(alloc);
    0
}

/// Puts a name into a queue by one attempt. The owner may take it at once. Never waits.
///
/// Refused as Closed where the handle isn't open. Otherwise as OtherKind where it holds another kind of end. Otherwise as Full
/// where the queue was full at one moment of the call. Otherwise as Busy where another thread was half through a step.
///
/// ```text
/// tlsf_queue_post(&poster, name) == TLSF_OK
/// ```
#[unsafe(no_mangle)]
pub extern "C" fn tlsf_queue_post(poster: &mut EndSlot, name: BlockName) -> u32
    ensures poster { OnPoster poster.old poster.new result (¬ (result ≡ 0) → ((result ≡ full) ⊎ (result ≡ busy)) × (put_in poster.new ≡ put_in poster.old)) }
    ensures queue { KeepsEnd (end_in poster.old) (end_in poster.new) }
    ensures posted { result ≡ 0 → Puts (end_in poster.old) (end_in poster.new) (name_of name) }
    ensures full { result ≡ full → SawFull (end_in poster.old) }
{
    if !poster.serves() {
        return CallFault::Closed.refusal();
    }
    let answer = on_end!(poster, Poster, end => put_once(end, name.name()));
    match answer {
        Ok(()) => 0,
        Err(why) => why.number(),
    }
}

/// Takes the name that has waited longest out of a queue, by one attempt. It goes to `name`. Never waits.
///
/// Refused as Closed where the handle isn't open. Otherwise as OtherKind where it holds another kind of end. Otherwise as Empty
/// where the queue was empty at one moment of the call. Otherwise as Busy where another thread was half through putting that
/// name.
///
/// ```text
/// while (tlsf_queue_take(&queue, &name) == TLSF_OK) { tlsf_release(&heap, name); }
/// ```
#[unsafe(no_mangle)]
pub extern "C" fn tlsf_queue_take(queue: &mut EndSlot, name: &mut BlockName) -> u32
    ensures owner { OnQueue queue.old queue.new result (¬ (result ≡ 0) → ((result ≡ empty) ⊎ (result ≡ busy)) × (got_in queue.new ≡ got_in queue.old)) }
    ensures queue { KeepsQueue (owner_in queue.old) (owner_in queue.new) × (left_in queue.new ≡ left_in queue.old) }
    ensures taken { result ≡ 0 → Gets (owner_in queue.old) (owner_in queue.new) (name_of name.new) }
    ensures empty { result ≡ empty → AllTaken (owner_in queue.new) }
    ensures no_name { ¬ (result ≡ 0) → name.new ≡ name.old }
{
    if !queue.serves() {
        return CallFault::Closed.refusal();
    }
    on_end!(queue, Queue, end => take_name(end, name))
}

/// Takes the name that has waited longest out of a queue, by one attempt. It goes to `name`.
fn take_name(end: &mut QueueEnd, name: &mut BlockName) -> u32
    ensures queue { StaysOwner end.old end.new }
    ensures taken { result ≡ 0 → HasGot end.old.owner end.new.owner (name_of name.new) }
    ensures missed { ¬ (result ≡ 0) → ((result ≡ empty) ⊎ (result ≡ busy)) × (got_by end.new.owner ≡ got_by end.old.owner) }
    ensures empty { result ≡ empty → IsAllTaken end.new.owner }
    ensures no_name { ¬ (result ≡ 0) → name.new ≡ name.old }
{
    match take_once(end) {
        Ok(post) => {
            *name = BlockName::of(post.name);
            0
        }
        Err(why) => why.number(),
    }
}

/// Takes names out of a queue, at most `most`, up to the first that it doesn't get. It releases the block that each names, whatever
/// the heap answers. How many came goes to `came`. Never waits.
///
/// Refused as Closed where the heap's handle or the queue's isn't open. Otherwise as OtherKind where the queue's holds another
/// kind of end.
///
/// ```text
/// tlsf_queue_drain(&heap, &queue, 16, &came) == TLSF_OK
/// ```
#[unsafe(no_mangle)]
pub extern "C" fn tlsf_queue_drain(
    heap: &mut HeapSlot,
    queue: &mut EndSlot,
    most: u32,
    came: &mut u32,
) -> u32
    ensures drains { DrainsEnd heap.old heap.new queue.old queue.new holds_queue result (λ posts. (got_in queue.new ≡ got_in queue.old ++ posts) × (length posts ≡ came.new)) }
    ensures queue { KeepsQueue (owner_in queue.old) (owner_in queue.new) × (left_in queue.new ≡ left_in queue.old) }
    ensures most { result ≡ 0 → came.new ≤ most }
    ensures kept { ¬ (result ≡ 0) → came.new ≡ came.old }
{
    if !heap.serves() || !queue.serves() {
        return CallFault::Closed.refusal();
    }
    on_end!(queue, Queue, end => *came = drain_names(heap, end, most));
    0
}

/// Takes names out of a queue, at most `most`, and releases the block that each names. Answers how many came. The heap is open.
fn drain_names(heap: &mut HeapSlot, end: &mut QueueEnd, most: u32) -> u32
    requires { serves heap.old ≡ true }
    ensures queue { StaysOwner end.old end.new }
    ensures drained { (posts : List Post) × ((got_by end.new.owner ≡ got_by end.old.owner ++ posts) × (length posts ≡ result)) × Drains heap.old heap.new posts }
    ensures most { result ≤ most }
{
    let mut count = 0;
    let mut left = most;
    while left > 0 {
        if drain_one(heap, end) {
            count += 1;
            left -= 1;
        } else {
            left = 0;
        }
    }
    count
}

/// Takes a post out of a queue, and releases the block that it names. Whether one came. The heap is open.
fn drain_one(heap: &mut HeapSlot, end: &mut QueueEnd) -> bool
    requires { serves heap.old ≡ true }
    ensures queue { StaysOwner end.old end.new }
    ensures came { result ≡ true → (post : Post) × (got_by end.new.owner ≡ got_by end.old.owner ++ post ∷ []) × Drains heap.old heap.new (post ∷ []) }
    ensures none { result ≡ false → (heap.new ≡ heap.old) × (got_by end.new.owner ≡ got_by end.old.owner) }
{
    match take_once(end) {
        Ok(post) => {
            release_posts(heap, &[post]);
            true
        }
        Err(_) => false,
    }
}
