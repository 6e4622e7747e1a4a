//! The content of an end's handle.
ghost use Rattle.std.specs.Prelude.{◌≡◌, is_some, Some};
ghost use Rattle.tlsf_c.specs.Ends.{is_idle, with_idle, post_of_end, take_of_end, queue_of_end, poster_of_end};

use crate::queue_end::QueueEnd;
use tlsf_post::{PostEnd, PosterEnd, TakeEnd};

/// An end of a lane or of a queue, and whether no call is using it. The note lies beside the end's kind, in memory that no other
/// thread reads. So a call writes nothing in the handle, and what other threads read beside that stays in their caches.
#[cycle(ends)]
#[derive(Drop)]
pub enum AnyEnd {
    Post { is_idle: bool, end: PostEnd },
    Take { is_idle: bool, end: TakeEnd },
    Queue { is_idle: bool, end: QueueEnd },
    Poster { is_idle: bool, end: PosterEnd },
}

impl AnyEnd {
    /// Whether no call is using it.
    #[inline(always)]
    pub fn is_idle(&self) -> bool
        ensures { result ≡ is_idle (Some self.now) }
    {
        match self {
            AnyEnd::Post { is_idle, .. }
            | AnyEnd::Take { is_idle, .. }
            | AnyEnd::Queue { is_idle, .. }
            | AnyEnd::Poster { is_idle, .. } => *is_idle,
        }
    }

    /// Notes whether no call is using it.
    pub fn set_idle(&mut self, idle: bool)
        ensures { Some self.new ≡ with_idle idle (Some self.old) }
    {
        match self {
            AnyEnd::Post { is_idle, .. } => *is_idle = idle,
            AnyEnd::Take { is_idle, .. } => *is_idle = idle,
            AnyEnd::Queue { is_idle, .. } => *is_idle = idle,
            AnyEnd::Poster { is_idle, .. } => *is_idle = idle,
        }
    }

    /// Whether it puts names into a lane.
    pub fn is_post(&self) -> bool
        ensures { result ≡ is_some (post_of_end (Some self.now)) }
    {
        matches!(self, AnyEnd::Post { .. })
    }

    /// Whether it takes names out of a lane.
    pub fn is_take(&self) -> bool
        ensures { result ≡ is_some (take_of_end (Some self.now)) }
    {
        matches!(self, AnyEnd::Take { .. })
    }

    /// Whether it is the owner's end of a queue.
    pub fn is_queue(&self) -> bool
        ensures { result ≡ is_some (queue_of_end (Some self.now)) }
    {
        matches!(self, AnyEnd::Queue { .. })
    }

    /// Whether it is a poster's end of a queue.
    pub fn is_poster(&self) -> bool
        ensures { result ≡ is_some (poster_of_end (Some self.now)) }
    {
        matches!(self, AnyEnd::Poster { .. })
    }
}
