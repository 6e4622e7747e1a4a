//! The rule of a mailbox's queue, and what each step on it tells.

use crate::post::Post;
use crate::view::View;
use crossbeam_queue::RuledArrayQueue;
use crossbeam_queue::protocol::{Join, Lesson, Outcome, Protocol, Split};

/// The queue of a mailbox.
pub(crate) type Queue = RuledArrayQueue<Post, View, InOrder>;

/// Of each poster, what was taken and then what waits is what it has put, in order. No more waits than the mailbox holds.
pub(crate) struct InOrder;

impl Protocol<Post, View> for InOrder {
    ghost use Rattle.std.specs.Prelude.{[]};
    ghost use Rattle.tlsf_post.specs.Rule.{Kept, owner_view, plan_for};

    ghost holds = { Kept };

    ghost first = { owner_view (plan_for 0 0 0) 0 [] [] };
}

/// The owner's number is one more.
pub(crate) struct OwnerOn;

impl Split<View> for OwnerOn {
    ghost use Rattle.std.specs.Prelude.{◌+◌};
    ghost use Rattle.tlsf_post.specs.Rule.{owner_view, plan_for, idle};

    ghost left = { λ v. owner_view (plan_for (v.plan.owner + 1) v.plan.workers v.plan.capacity) v.number v.put v.got };

    ghost right = { λ v. idle };
}

/// There is one worker more.
pub(crate) struct OneWorker;

impl Split<View> for OneWorker {
    ghost use Rattle.std.specs.Prelude.{◌+◌};
    ghost use Rattle.tlsf_post.specs.Rule.{owner_view, plan_for, idle};

    ghost left = { λ v. owner_view (plan_for v.plan.owner (v.plan.workers + 1) v.plan.capacity) v.number v.put v.got };

    ghost right = { λ v. idle };
}

/// The mailbox holds one post more.
pub(crate) struct OneSlot;

impl Split<View> for OneSlot {
    ghost use Rattle.std.specs.Prelude.{◌+◌};
    ghost use Rattle.tlsf_post.specs.Rule.{owner_view, plan_for, idle};

    ghost left = { λ v. owner_view (plan_for v.plan.owner v.plan.workers (v.plan.capacity + 1)) v.number v.put v.got };

    ghost right = { λ v. idle };
}

/// The next poster goes out, with all that it had put and all that was taken of it.
pub(crate) struct PosterOut;

impl Split<View> for PosterOut {
    ghost use Rattle.std.specs.Prelude.{◌+◌};
    ghost use Rattle.tlsf_post.specs.Rule.{owner_view, poster_view, posts_of};

    ghost left = { λ v. owner_view v.plan (v.number + 1) v.put v.got };

    ghost right = { λ v. poster_view v.plan v.number (posts_of v.number v.put) (posts_of v.number v.got) };
}

/// The next number is passed over: it is the owner's own. Its pass is let go, and nobody posts by it.
pub(crate) struct OwnNumber;

impl Split<View> for OwnNumber {
    ghost use Rattle.std.specs.Prelude.{◌+◌};
    ghost use Rattle.tlsf_post.specs.Rule.{owner_view, idle};

    ghost left = { λ v. owner_view v.plan (v.number + 1) v.put v.got };

    ghost right = { λ v. idle };
}

/// The last poster that is out comes back, and the owner learns what it has put.
pub(crate) struct PosterBack;

impl Join<View> for PosterBack {
    ghost use Rattle.std.specs.Prelude.{◌++◌};
    ghost use Rattle.tlsf_post.specs.Rule.{owner_view, posts_but, idle};

    ghost both = { λ v w. owner_view v.plan w.number (posts_but w.number v.put ++ w.put) v.got };

    ghost spent = { idle };
}

/// A post goes in.
pub(crate) struct OnePut;

impl Outcome<Post, View> for OnePut {
    ghost use Rattle.tlsf_post.specs.Rule.{HasPut};

    ghost then = { HasPut };
}

impl Lesson<Post, View> for OnePut {
    ghost use Rattle.tlsf_post.specs.Rule.{ShowsOwn};

    ghost fact = { ShowsOwn };
}

/// A post comes out.
pub(crate) struct OneTake;

impl Outcome<Post, View> for OneTake {
    ghost use Rattle.tlsf_post.specs.Rule.{HasTaken};

    ghost then = { HasTaken };
}

impl Lesson<Post, View> for OneTake {
    ghost use Rattle.tlsf_post.specs.Rule.{Shows};

    ghost fact = { Shows };
}
