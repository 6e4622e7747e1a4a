//! The laws that the worker of a heap may rely on, whatever the other workers do: those of `tlsf_pool` for each heap of a yard.
//!
//! Each is the contract of a function that does nothing, over every list of events on every yard, or over every race, whatever its
//! schedule. They follow from `tlsf_crew::one_history`, [`one_history_of_a_race`] and [`one_history_of_a_queue_race`]. For a heap is
//! called by its own worker alone. A block that another worker gives back stays live until its owner takes that post. A law on races
//! holds over lanes and over queues. [`race_without_takes`] and [`queue_race_without_takes`] say when every schedule leads to the
//! same.
//!
//! | A user knows | So | Law |
//! |---|---|---|
//! | how many blocks its own worker was told to be held, those under way included | how many words are enough | [`yard_never_refuses`], [`race_never_refuses`] |
//! | how many blocks nobody has released yet, and how many posts the lanes or the queue hold | the same | [`lanes_add_their_capacity`]; in a race [`race_adds_its_lanes`], [`race_adds_its_queue`] |
//! | that each block is given back once | a post that is taken is never stale | [`no_post_is_stale`]; in lists of events [`no_fair_run_is_stale`] |
//! | what its own worker was told | the bytes under each name | [`yard_keeps_bytes`], [`race_keeps_bytes`] |
//!
//! A law on a race holds after any earlier replays and races ([`past_goes_on`]).
#![tactic(auto)]

mod fair_runs;
mod posts;
mod queue_race_histories;
mod race_histories;
mod races;
mod sharing;
mod without_takes;
mod yards;

pub use fair_runs::{no_fair_run_is_stale, some_run_is_fair};
pub use posts::no_post_is_stale;
pub use queue_race_histories::one_history_of_a_queue_race;
pub use race_histories::one_history_of_a_race;
pub use races::{past_goes_on, race_keeps_bytes, race_never_refuses};
pub use sharing::{lanes_add_their_capacity, race_adds_its_lanes, race_adds_its_queue};
pub use without_takes::{queue_race_without_takes, race_without_takes};
pub use yards::{yard_keeps_bytes, yard_never_refuses};
