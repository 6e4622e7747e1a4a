//! Lanes and mailboxes: two ways of a name to the owner of its heap.
//!
//! A lane goes from one worker to another. A [`PostEnd`] sends posts into it, a [`TakeEnd`] takes them out in the order in which
//! they were sent. The two ends come from one call of [`lane`], and each may then go into a thread of its own. The calls `put` and
//! `take` know their own end alone, and posts pass between them through a ring. Where both are at hand, [`beside`] tells each end
//! what the other did.
//!
//! Contracts see a `PostEnd` as the posts that it sent since the last `beside` (`posts_sent`) and the free slots that it knows of
//! (`free_slots`). They see the capacity of its lane too (`capacity_of`). They see a `TakeEnd` as the posts that waited at the last
//! `beside` (`waited`) and those taken since (`taken`). They see those that it knows to be ready (`ready`). Two ends fit each other
//! as those of one lane do, so that `beside` may join them: this is `IsLane`.
//!
//! A mailbox is one queue for each owner, into which all others post. [`mailbox`] answers the [`OwnerEnd`] that takes, and
//! a [`PosterEnd`] for each other worker. Where all ends are at hand, [`OwnerEnd::beside`] tells
//! the owner what was put.
//!
//! Contracts see a `PosterEnd` as its number (`number_of`) and all that was put through it (`put_by`). They see which of these it
//! knows to have been taken (`gone_from`). They see the mailbox's owner, workers and capacity too (`plan_of`). They see an
//! `OwnerEnd` as its number (`owner_of`), all that was taken through it (`got_by`), and what it knows to have been put
//! (`known_to`). The posts of one worker among these are `posts_of`. An end can speak of the posts that waited at one moment of its
//! call: by `PosterSaw` and `OwnerSaw`. Ends are all those of one mailbox: this is `IsWhole`.
//!
//! Nothing but `lane` and `mailbox` takes memory. A lane's ends never wait; those of a mailbox may wait for one another's
//! half of a step.
#![tactic(auto)]

mod lanes;
mod mailboxes;
mod mark;
mod owner_end;
mod plan;
mod post;
mod post_end;
mod poster_end;
mod rounds;
mod rule;
mod take_end;
mod view;

pub use lanes::{beside, lane};
pub use mailboxes::mailbox;
pub use owner_end::OwnerEnd;
pub use post::Post;
pub use post_end::PostEnd;
pub use poster_end::PosterEnd;
pub use take_end::TakeEnd;
pub use tlsf_words::NoMemory;
