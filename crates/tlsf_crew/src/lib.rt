//! Workers, each the owner of one heap, and lanes between them on which names go back to their owner.
//!
//! [`open_yard`] opens a whole yard: one heap for each [`Worker`], and a lane from each worker to each other. A worker
//! allocates, writes and reads on its own heap alone. A name of another's heap it posts into the lane to that owner, who
//! takes it and releases the block.
//!
//! A yard is of level 4 or 5, as its heaps are. [`open_yard`] is asked for a level, and all else has that of the workers which it
//! is given. Definitions have the level of the world or the workers that they are about, a `World sli` or a `Worker sli Lanes`.
//!
//! Contracts see a whole yard (`IsYard`) as a `World`: the heaps, what waits in each lane, and the lanes' capacity.
//! [`replay_events`] runs a list of events on it, one after another, and answers what the definition `replies` says. It tells both
//! ends of a lane all before and after each call that concerns it. So a lane is full exactly where its capacity of posts waits.
//! [`settle`] does so for all lanes at once and leaves the world as it is. [`one_history`] says what holds of every list of
//! replies: each heap has one history.
//!
//! [`race`] runs a script for each worker, in a thread of its own, and then drains each worker. The answers to each are its record,
//! in the [`Outcome`]. This holds whatever the schedule of the threads (`IsRace`). Each record is legal: it has the answers of the
//! worker's own heap to its calls, one after another. Each two records agree on what was posted and taken, and nothing waits in the
//! end. A [`Gate`] is passed before each call, where a test can have the threads meet. `tlsf_yard_laws` has the laws of races.
//!
//! Each call of a `Worker` over lanes doesn't wait, and keeps its yard whole. A worker of either kind is `Send`,
//! at each level: a `move` closure takes it into a thread, and its caller proves nothing of that.
//!
//! [`open_queue_yard`] opens a yard of another kind, with one queue for each owner, into which all others post. A worker is a heap
//! with ports, which are [`Lanes`] where nothing else is said. A [`QueueWorker`] has [`Queues`] in their place, and takes from its
//! own one. Its calls on the own heap are those of every worker. Such a yard (`IsQueueYard`) shows a `World` too. There `post`,
//! `release`, `take` and `drain` may wait for another thread's half of a step, and so are passed a runtime. [`race_queues`] races
//! such workers (`IsQueueRace`): each two records agree on what was posted and taken, poster by poster.
//!
//! A [`LockedHeap`] has no owner and stands outside any yard: any thread that has a reference to it may call it. Whoever locks it
//! has its heap, as a [`Counted`], until the guard is dropped.
//!
//! A `Counted` counts the allocates and the releases that were accepted. Whoever has just got the lock knows that the heap is
//! lawful. It knows that its live blocks are the accepted allocates less the accepted releases (`IsCounted`). Nothing else is known
//! then, since other threads may have called the heap before.
//!
//! `lock` waits, and no call of a `Counted` does. Only `new` takes memory. The calls of a `Counted` make as many touches as those of
//! the heap. They are at most 64 for a release. For an allocate they are at most 64 and one for each payload word of the block that
//! it gives.
#![tactic(auto)]

mod histories;
mod jobs;
mod lanes;
mod locked_heap;
mod queues;
mod races;
mod replays;
mod scripts;
mod worker;

pub use histories::history::one_history;
pub use jobs::gate::{Gate, OpenGate};
pub use jobs::outcome::{Outcome, QueueOutcome};
pub use lanes::laws::lanes_join_the_yard;
pub use lanes::opening::open_yard;
pub use lanes::settle::settle;
pub use locked_heap::{Counted, LockedHeap};
pub use queues::queue_laws::queues_join_the_yard;
pub use queues::queue_opening::open_queue_yard;
pub use queues::queue_settle::settle_queues;
pub use queues::queues::{QueueWorker, Queues};
pub use races::queue_race::race_queues;
pub use races::race::race;
pub use replays::replay::{replay_behind, replay_events};
pub use tlsf_calls::{
    Call, Chunk, CrewRefusal, Drained, Entry, Event, MOST_DRAINED, Released, Reply, Target, Took,
};
pub use worker::lanes::Lanes;
pub use worker::ports::Ports;
pub use worker::worker::Worker;
