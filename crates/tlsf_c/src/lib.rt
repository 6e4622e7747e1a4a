//! The heap for C and C++: one export for each call.
//!
//! The object of a call lies behind a handle in the caller's memory, which is open or closed. No call requires anything of a handle
//! beyond what its type says: a closed one is refused, and so is opening one twice.
#![tactic(auto)]

mod any_arena;
mod any_end;
mod any_heap;
mod any_offsets;
mod any_pools;
mod arena_slot;
mod at_level;
mod boxed_arena;
mod boxed_end;
mod boxed_heap;
mod call_fault;
mod check_calls;
mod end_slot;
mod heap_calls;
mod heap_counts;
mod heap_slot;
mod held_heap;
mod kind_row;
mod lane_calls;
mod lengths;
mod may_cross;
mod names;
mod odd_note;
mod offset_calls;
mod parts;
mod place_calls;
mod pointer_calls;
mod pool_calls;
mod pool_places;
mod queue_calls;
mod queue_end;
mod refused;
mod slice_calls;
mod spans;

use crate::arena_slot::ArenaSlot;
use crate::end_slot::EndSlot;
use crate::heap_slot::HeapSlot;
use crate::may_cross::MayCross;

/// Open handles may go to other threads: the answer's type can be had of those alone that are `Send`.
///
/// ```text
/// handles_may_cross();
/// ```
pub fn handles_may_cross() -> (MayCross<HeapSlot>, MayCross<EndSlot>, MayCross<ArenaSlot>) {
    (MayCross::new(), MayCross::new(), MayCross::new())
}
