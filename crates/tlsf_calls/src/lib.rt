//! The calls of a worker and its answers, as plain values: no worker, no lane and no heap stands in them.
//!
//! An [`Event`] is a [`Call`] and the number of the worker that makes it; an [`Entry`] has the [`Reply`] besides. A call
//! means a block by a [`Target`]: its name, or the number of the event that is to make it. Payload bytes go in a [`Chunk`],
//! and a [`CrewRefusal`] says why a call did nothing.
//!
//! ```
//! let target = Target::Made(0);   // the block that event 0 makes
//! let event = Event { worker: 1, call: Call::Read { target, at: 0, n: 4 } };
//! // an answer to it: Reply::Got(chunk), with 4 bytes in chunk.as_slice()
//! ```
#![tactic(auto)]

mod call;
mod chunk;
mod crew_refusal;
mod drained;
mod entry;
mod event;
mod released;
mod reply;
mod target;
mod took;

pub use call::Call;
pub use chunk::Chunk;
pub use crew_refusal::CrewRefusal;
pub use drained::{Drained, MOST_DRAINED};
pub use entry::Entry;
pub use event::Event;
pub use released::Released;
pub use reply::Reply;
pub use target::Target;
pub use took::Took;
