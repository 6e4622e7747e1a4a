//! C's calls of a lane: one thread puts names in, another takes them out.
ghost use Rattle.std.specs.Prelude.{◌||◌, ◌≡◌, true, ◌+◌, ◌-◌, ◌<◌, ◌≤◌, [], ◌∷◌, ◌++◌, List, Option, length, take, drop};
ghost use Rattle.tlsf_post.specs.declared.post.Post.{Post};
ghost use Rattle.tlsf_post.specs.declared.post_end.PostEnd.{PostEnd};
ghost use Rattle.tlsf_post.specs.declared.take_end.TakeEnd.{TakeEnd};
ghost use Rattle.tlsf_post.specs.Lanes.{taken, ready, IsLane};
ghost use Rattle.tlsf_c.specs.Handles.{post_of, posts_named, post_in, take_in, holds_post, holds_take, sent_in, known_slots, taken_in, ready_in, AreEnds, AreLane, HasTaken, Takes, end_serves, serves, ClosesEnd, OnPost, OnTake, PutsNames};
ghost use Rattle.tlsf_c.specs.Drains.{Drains, DrainsEnd};
ghost use Rattle.tlsf_c.specs.Names.{name_of};
ghost use Rattle.tlsf_c.specs.Takes.{HasTakenFirst, TakesFirst, TakesThese};
ghost use Rattle.tlsf_c.specs.Refusals.{full, empty};
ghost use Rattle.tlsf_c.specs.Serving.{Opens};
ghost use Rattle.tlsf_c.specs.declared.end_slot.EndSlot.{EndSlot};

use crate::any_end::AnyEnd;
use crate::call_fault::CallFault;
use crate::end_slot::{EndSlot, on_end};
use crate::heap_calls::release_named;
use crate::heap_slot::HeapSlot;
use crate::names::BlockName;
use std::alloc::Global;
use tlsf_heap::Name;
use tlsf_post::{Post, PostEnd, TakeEnd, lane};

/// How many names a drain takes out of a lane at once. Each time writes a line that a poster reads who finds the lane full. So
/// beside such a poster a full lane is drained faster by slices than by single names. An empty drain fills this many places in
/// vain.
const AT_ONCE: usize = 32;

/// How many names a shorter list has: most often no more wait.
const FEW: usize = 20;

/// The value in a place that no post came into.
const NO_POST: Post = Post {
    from: 0,
    name: Name {
        heap: 0,
        at: 0,
        serial: 0,
    },
};

/// Opens a lane for up to `capacity` names, 1 to 1,024, in two closed handles. One end puts names in, and the other takes them out.
///
/// Refused as InUse where a handle is open. Otherwise as BadSize where the capacity is out of range. Otherwise as NoMemory where
/// the memory was not granted. No later call on the lane takes memory.
///
/// ```text
/// tlsf_lane_open(&post, &take, 64) == TLSF_OK
/// ```
#[unsafe(no_mangle)]
pub extern "C" fn tlsf_lane_open(
    alloc: Global,
    post: &mut EndSlot,
    take: &mut EndSlot,
    capacity: u32,
) -> u32
    ensures refusals { Opens {H = EndSlot × EndSlot} (post.old.is_open || take.old.is_open) ((0 < capacity) × (capacity ≤ 1024)) (post.old, take.old) (post.new, take.new) result }
    ensures lane { result ≡ 0 → AreLane post.new take.new }
    ensures none { result ≡ 0 → (sent_in post.new ≡ []) × (taken_in take.new ≡ []) × (known_slots post.new ≡ capacity) }
    ensures opens { result ≡ 0 → (end_serves post.new ≡ true) × (end_serves take.new ≡ true) }
    ensures kinds { result ≡ 0 → (holds_post post.new ≡ true) × (holds_take take.new ≡ true) }
{
    if post.is_open || take.is_open {
        return CallFault::InUse.number();
    }
    if capacity == 0 || capacity > 1024 {
        return CallFault::BadSize.number();
    }
    let Ok((post_end, take_end)) = lane(alloc, capacity) else {
        return CallFault::NoMemory.number();
    };
    let Ok(post_box) = Box::new(
        alloc,
        AnyEnd::Post {
            is_idle: true,
            end: post_end,
        },
    ) else {
        return CallFault::NoMemory.number();
    };
    let Ok(take_box) = Box::new(
        alloc,
        AnyEnd::Take {
            is_idle: true,
            end: take_end,
        },
    ) else {
        return CallFault::NoMemory.number();
    };
    post.put_in(post_box);
    take.put_in(take_box);
    0
}

/// Closes the end of a lane that puts names in.
///
/// Refused as Closed where the handle isn't open. Otherwise as OtherKind where it holds another kind of end.
///
/// ```text
/// tlsf_post_close(&post) == TLSF_OK
/// ```
#[unsafe(no_mangle)]
pub extern "C" fn tlsf_post_close(alloc: Global, post: &mut EndSlot) -> u32
    ensures { ClosesEnd (holds_post post.old) post.old post.new result }
{
    if !post.serves() {
        return CallFault::Closed.number();
    }
    if !post.inner.lend().is_post() {
        return CallFault::OtherKind.number();
    }
    post.close(alloc);
    0
}

/// Closes the end of a lane that takes names out.
///
/// Refused as Closed where the handle isn't open. Otherwise as OtherKind where it holds another kind of end.
///
/// ```text
/// tlsf_take_close(&take) == TLSF_OK
/// ```
#[unsafe(no_mangle)]
pub extern "C" fn tlsf_take_close(alloc: Global, take: &mut EndSlot) -> u32
    ensures { ClosesEnd (holds_take take.old) take.old take.new result }
{
    if !take.serves() {
        return CallFault::Closed.number();
    }
    if !take.inner.lend().is_take() {
        return CallFault::OtherKind.number();
    }
    take.close(alloc);
    0
}

/// Puts a name into a lane. The other end may take it at once. Never waits.
///
/// Refused as Closed where the handle isn't open. Otherwise as OtherKind where it holds another kind of end. Otherwise as Full
/// where the lane is full, as far as this end knows.
///
/// ```text
/// tlsf_put(&post, name) == TLSF_OK
/// ```
#[unsafe(no_mangle)]
pub extern "C" fn tlsf_put(post: &mut EndSlot, name: BlockName) -> u32
    ensures post { OnPost post.old post.new result (¬ (result ≡ 0) → (result ≡ full) × (sent_in post.new ≡ sent_in post.old) × (known_slots post.new ≡ known_slots post.old)) }
    ensures lane { (t : Option TakeEnd) → AreEnds (post_in post.old) t → AreEnds (post_in post.new) t }
    ensures sent { result ≡ 0 → sent_in post.new ≡ sent_in post.old ++ post_of (name_of name) ∷ [] }
    ensures slots { result ≡ 0 → known_slots post.new ≡ known_slots post.old - 1 }
    ensures succeeds { end_serves post.old ≡ true → 0 < known_slots post.old → result ≡ 0 }
{
    if !post.serves() {
        return CallFault::Closed.refusal();
    }
    let answer = on_end!(post, Post, end => end.put(Post { from: 0, name: name.name() }));
    match answer {
        Ok(()) => 0,
        Err(_) => CallFault::Full.number(),
    }
}

/// Puts names into a lane, from the first on, as many as this end sees slots for. The other end sees up to 32 of them after one
/// store, which costs it less than each name by itself. How many went goes to `went`: the others may be put again later. Never
/// waits.
///
/// Refused as Closed where the handle isn't open. Otherwise as OtherKind where it holds another kind of end.
///
/// ```text
/// tlsf_put_all(&post, names, 40, &went) == TLSF_OK
/// ```
#[unsafe(no_mangle)]
pub extern "C" fn tlsf_put_all(post: &mut EndSlot, names: &[BlockName], went: &mut usize) -> u32
    ensures post { OnPost post.old post.new result (result ≡ 0) }
    ensures kept { ¬ (result ≡ 0) → went.new ≡ went.old }
    ensures lane { (t : Option TakeEnd) → AreEnds (post_in post.old) t → AreEnds (post_in post.new) t }
    ensures sent { result ≡ 0 → (went.new ≤ length names.now) × (sent_in post.new ≡ sent_in post.old ++ posts_named (take went.new names.now)) × (known_slots post.new ≡ known_slots post.old - went.new) }
    ensures succeeds { result ≡ 0 → went.new < length names.now → known_slots post.old ≤ went.new }
{
    if !post.serves() {
        return CallFault::Closed.refusal();
    }
    on_end!(post, Post, end => *went = put_names(end, names));
    0
}

/// Puts names in by slices, until one doesn't go whole, and answers how many went.
fn put_names(end: &mut PostEnd, names: &[BlockName]) -> usize
    ensures { PutsNames end.old end.new names.now result }
{
    let mut count = 0;
    let mut is_full = false;
    while count < names.len() && !is_full {
        let (_, rest) = names.split_at(count);
        let (some, _) = rest.split_at(AT_ONCE.min(rest.len()));
        let sent = put_slice(end, some);
        count += sent;
        is_full = sent < some.len();
    }
    count
}

/// Puts up to 32 names in with one store, from the first on, and answers how many went.
fn put_slice(end: &mut PostEnd, names: &[BlockName]) -> usize
    requires { length names.now ≤ 32 }
    ensures { PutsNames end.old end.new names.now result }
{
    let mut posts = [NO_POST; AT_ONCE];
    for (k, block) in names.iter().enumerate() {
        posts[k] = Post {
            name: block.name(),
            ..NO_POST
        };
    }
    let (named, _) = posts.split_at(names.len());
    end.put_all(named)
}

/// Takes the next name out of a lane. It goes to `name`. Never waits.
///
/// Refused as Closed where the handle isn't open. Otherwise as OtherKind where it holds another kind of end. Otherwise as Empty
/// where this end sees none.
///
/// ```text
/// while (tlsf_take(&take, &name) == TLSF_OK) { tlsf_release(&heap, name); }
/// ```
#[unsafe(no_mangle)]
pub extern "C" fn tlsf_take(take: &mut EndSlot, name: &mut BlockName) -> u32
    ensures take { OnTake take.old take.new result (¬ (result ≡ 0) → (result ≡ empty) × (taken_in take.new ≡ taken_in take.old)) }
    ensures lane { (p : Option PostEnd) → AreEnds p (take_in take.old) → AreEnds p (take_in take.new) }
    ensures taken { result ≡ 0 → Takes (take_in take.old) (take_in take.new) (name_of name.new) }
    ensures no_name { ¬ (result ≡ 0) → name.new ≡ name.old }
    ensures succeeds { end_serves take.old ≡ true → 0 < length (ready_in take.old) → result ≡ 0 }
{
    if !take.serves() {
        return CallFault::Closed.refusal();
    }
    on_end!(take, Take, end => take_name(end, name))
}

/// Takes the next name out of a lane. It goes to `name`.
fn take_name(end: &mut TakeEnd, name: &mut BlockName) -> u32
    ensures lane { (p : PostEnd) → IsLane p end.old → IsLane p end.new }
    ensures taken { result ≡ 0 → HasTaken end.old end.new (name_of name.new) }
    ensures empty { ¬ (result ≡ 0) → (result ≡ empty) × (taken end.new ≡ taken end.old) }
    ensures succeeds { 0 < length (ready end.old) → result ≡ 0 }
    ensures no_name { ¬ (result ≡ 0) → name.new ≡ name.old }
{
    match end.take() {
        Some(post) => {
            *name = BlockName::of(post.name);
            0
        }
        None => CallFault::Empty.number(),
    }
}

/// Takes the first names out of a lane, in their order. All come that are known to be ready, up to the places of `names`, and to 32.
/// One store hands their slots back, so a poster who finds the lane full disturbs this less than single takes. How many came goes
/// to `came`. Other places stay as they were. Never waits.
///
/// Refused as Closed where the handle isn't open. Otherwise as OtherKind where it holds another kind of end. Otherwise as Empty
/// where there is a place and this end sees no name.
///
/// ```text
/// tlsf_take_all(&take, names, 32, &came) == TLSF_OK
/// ```
#[unsafe(no_mangle)]
pub extern "C" fn tlsf_take_all(
    take: &mut EndSlot,
    names: &mut [BlockName],
    came: &mut usize,
) -> u32
    ensures take { OnTake take.old take.new result (¬ (result ≡ 0) → (result ≡ empty) × (0 < length names.old) × (length (ready_in take.old) ≡ 0) × (taken_in take.new ≡ taken_in take.old)) }
    ensures refused { ¬ (result ≡ 0) → (names.new ≡ names.old) × (came.new ≡ came.old) }
    ensures lane { (p : Option PostEnd) → AreEnds p (take_in take.old) → AreEnds p (take_in take.new) }
    ensures taken { result ≡ 0 → TakesFirst (take_in take.old) (take_in take.new) came.new names.new }
    ensures rest { result ≡ 0 → drop came.new names.new ≡ drop came.new names.old }
    ensures most { result ≡ 0 → (came.new ≤ length names.old) × (came.new ≤ 32) × (0 < length names.old → 0 < came.new) }
    ensures ready { result ≡ 0 → came.new < length names.old → came.new < 32 → length (ready_in take.old) ≤ came.new }
{
    if !take.serves() {
        return CallFault::Closed.refusal();
    }
    let count = on_end!(take, Take, end => take_names(end, names));
    if count == 0 && !names.is_empty() {
        return CallFault::Empty.number();
    }
    *came = count;
    0
}

/// Takes up to 32 names out of a lane with one store, in their order, and answers how many came. It looks first how many are ready.
fn take_names(end: &mut TakeEnd, names: &mut [BlockName]) -> usize
    ensures lane { (p : PostEnd) → IsLane p end.old → IsLane p end.new }
    ensures taken { HasTakenFirst end.old end.new result names.new }
    ensures rest { drop result names.new ≡ drop result names.old }
    ensures most { (result ≤ length names.old) × (result ≤ 32) }
    ensures ready { result < length names.old → result < 32 → length (ready end.old) ≤ result }
    ensures none { result ≡ 0 → (names.new ≡ names.old) × (taken end.new ≡ taken end.old) }
{
    let count = end.look(AT_ONCE.min(names.len()));
    let (places, _) = names.split_at_mut(count);
    take_ready(end, places);
    count
}

/// Fills each place with a name, by a list that is no longer than need be. All these names are known to be ready.
#[inline(always)]
fn take_ready(end: &mut TakeEnd, names: &mut [BlockName])
    requires { (length names.old ≤ 32) × (length names.old ≤ length (ready end.old)) }
    ensures { TakesThese end.old end.new names.new }
{
    if names.len() > FEW {
        take_many(end, names);
    } else if names.len() > 1 {
        take_few(end, names);
    } else if names.len() == 1 {
        take_name(end, &mut names[0]);
    }
}

/// `take_by` for up to 32 names. Its list is filled where it begins, so one that isn't taken costs nothing.
#[inline(always)]
fn take_many(end: &mut TakeEnd, names: &mut [BlockName])
    requires { (length names.old ≤ 32) × (length names.old ≤ length (ready end.old)) }
    ensures { TakesThese end.old end.new names.new }
{
    take_by(&mut [NO_POST; AT_ONCE], end, names);
}

/// `take_by` for up to 20 names.
#[inline(always)]
fn take_few(end: &mut TakeEnd, names: &mut [BlockName])
    requires { (length names.old ≤ 20) × (length names.old ≤ length (ready end.old)) }
    ensures { TakesThese end.old end.new names.new }
{
    take_by(&mut [NO_POST; FEW], end, names);
}

/// Fills each place with a name, by the first of `posts`, with one store. All these names are known to be ready.
#[inline(always)]
fn take_by(posts: &mut [Post], end: &mut TakeEnd, names: &mut [BlockName])
    requires { (length names.old ≤ length posts.old) × (length names.old ≤ length (ready end.old)) }
    ensures { TakesThese end.old end.new names.new }
{
    let (came, _) = posts.split_at_mut(names.len());
    end.take_slice(came);
    for (k, post) in came.iter().enumerate() {
        names[k] = BlockName::of(post.name);
    }
}

/// Takes names out of a lane, at most `most` and all that are known to be ready. It releases the block that each names, whatever
/// the heap answers. How many came goes to `came`. Never waits.
///
/// Refused as Closed where the heap's handle or the lane's isn't open. Otherwise as OtherKind where the lane's holds another kind
/// of end.
///
/// ```text
/// tlsf_drain(&heap, &take, 16, &came) == TLSF_OK
/// ```
#[unsafe(no_mangle)]
pub extern "C" fn tlsf_drain(
    heap: &mut HeapSlot,
    take: &mut EndSlot,
    most: u32,
    came: &mut u32,
) -> u32
    ensures drains { DrainsEnd heap.old heap.new take.old take.new holds_take result (λ posts. (taken_in take.new ≡ taken_in take.old ++ posts) × (length posts ≡ came.new)) }
    ensures lane { (p : Option PostEnd) → AreEnds p (take_in take.old) → AreEnds p (take_in take.new) }
    ensures most { result ≡ 0 → came.new ≤ most }
    ensures ready { result ≡ 0 → came.new < most → length (ready_in take.old) ≤ came.new }
    ensures kept { ¬ (result ≡ 0) → came.new ≡ came.old }
{
    if !heap.serves() || !take.serves() {
        return CallFault::Closed.refusal();
    }
    on_end!(take, Take, end => *came = drain_names(heap, end, most));
    0
}

/// Takes names out of a lane by slices: all that are known to be ready, and at most `most`. Releases the block that each names.
/// Answers how many came. The heap is open.
fn drain_names(heap: &mut HeapSlot, end: &mut TakeEnd, most: u32) -> u32
    requires { serves heap.old ≡ true }
    ensures drained { (posts : List Post) × ((taken end.new ≡ taken end.old ++ posts) × (length posts ≡ result)) × Drains heap.old heap.new posts }
    ensures most { result ≤ most }
    ensures ready { result < most → length (ready end.old) ≤ result }
    ensures lane { (p : PostEnd) → IsLane p end.old → IsLane p end.new }
{
    let mut posts = [NO_POST; AT_ONCE];
    let mut count = 0;
    let mut left = most;
    while left > 0 {
        let wanted = AT_ONCE.min(left as usize);
        let (places, _) = posts.split_at_mut(wanted);
        let came = end.take_slice(places);
        let (names, _) = places.split_at(came);
        release_posts(heap, names);
        count += came as u32;
        left = left_after(left, wanted, came);
    }
    count
}

/// How many names may still come of `left`: none after a look that showed fewer than were wanted.
fn left_after(left: u32, wanted: usize, taken: usize) -> u32
    requires { (taken ≤ wanted) × (wanted ≤ left) }
    ensures fewer { taken < wanted → result ≡ 0 }
    ensures all { taken ≡ wanted → result + taken ≡ left }
    ensures most { result + taken ≤ left }
{
    if taken < wanted {
        0
    } else {
        left - taken as u32
    }
}

/// Releases the block that each post names, in their order, whatever the heap answers. The heap is open.
pub(crate) fn release_posts(heap: &mut HeapSlot, posts: &[Post])
    requires { serves heap.old ≡ true }
    ensures { Drains heap.old heap.new posts.now }
{
    for post in posts {
        let Name {
            heap: number,
            at,
            serial,
        } = post.name;
        let _ = release_named(heap, number, serial, at);
    }
}
