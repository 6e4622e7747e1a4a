ghost use Rattle.std.specs.Prelude.{◌≡◌, ◌<◌, [], true, false};
ghost use Rattle.std.specs.Arc.{arc_value};
ghost use Rattle.crossbeam_queue.specs.Passes.{view, ruled_capacity};
ghost use Rattle.tlsf_post.specs.Rule.{plan_for};

use crate::post::Post;
use crate::poster_end::PosterEnd;
use crate::rounds::come_back;
use crate::rule::{OneTake, Queue};
use crate::view::View;
use crossbeam_queue::Pass;
use std::alloc::Global;
use std::sync::{Arc, Wait};
use std::thread::yield_now;

/// The end of a mailbox that takes posts, whoever put them. It may go into a thread of its own.
///
/// ```
/// let child = scope.spawn(move || owner_end.take(rt))?;
/// ```
#[derive(Drop)]
pub struct OwnerEnd {
    pub(crate) queue: Arc<Queue, Global>,
    // The posts that were taken, and those that are known to have been put. It has no bytes.
    pub(crate) pass: Pass<Post, View>,
    pub(crate) number: u32,
    ghost place: { pass.table_id ≡ (arc_value queue).table.shared.table_id },
    ghost whole: { pass.me.1 ≡ [] },
    ghost takes: { (view pass).takes ≡ true },
    ghost posts: { (view pass).posts ≡ false },
    ghost plan: { (view pass).plan ≡ plan_for number (view pass).number (ruled_capacity (arc_value queue)) },
    ghost past: { number < (view pass).number },
}

impl OwnerEnd {
    ghost use Rattle.std.specs.Prelude.{◌≡◌, ◌≢◌, ◌<◌, ◌≤◌, List, [], ◌∷◌, ◌++◌, length, IfSome, IfNone, IsTrue, vec_capacity};
    ghost use Rattle.tlsf_post.specs.declared.post.Post.{Post};
    ghost use Rattle.tlsf_post.specs.Mailboxes.{owner_of, out_of, most_of, got_by, owner_extent, KeepsOwner, OwnerSaw, IsAllTaken, IsWhole, AllBeside};

    /// Takes the post that has waited longest, or answers `None` where the mailbox was empty at one moment of the call.
    /// It may spin while a post is half put or taken by another thread, and so needs `Wait`.
    ///
    /// - `mailbox`: it stays the owner's end of its mailbox.
    /// - `stays`: it takes no memory, so the mailbox's posts stay where they lie.
    /// - `some`: the post stands after those taken before.
    /// - `waited`: no more posts waited than the mailbox holds, and it before the others.
    /// - `from`: it is of another worker, for which the mailbox has an end.
    /// - `none`: nothing was taken, and of each poster all was taken that was known to have been put.
    ///
    /// ```
    /// if let Some(post) = owner_end.take(rt) {
    ///     let _ = heap.release(post.name);     // worker `post.from` posted it
    /// }
    /// ```
    pub fn take<R: Wait>(&mut self, rt: &R) -> Option<Post>
        ensures mailbox { KeepsOwner self.old self.new }
        ensures stays { owner_extent self.new ≡ owner_extent self.old }
        ensures some { IfSome result (λ p. got_by self.new ≡ got_by self.old ++ p ∷ []) }
        ensures waited { IfSome result (λ p. (others : List Post) × OwnerSaw self.old (p ∷ others)) }
        ensures from { IfSome result (λ p. (p.from < out_of self.old) × (p.from ≢ owner_of self.old)) }
        ensures none { IfNone result ((got_by self.new ≡ got_by self.old) × IsAllTaken self.new) }
    {
        self.queue.pop_as::<OneTake, R>(rt, &mut self.pass)
    }

    /// Takes the post that has waited longest by one attempt. It answers `None` where the mailbox is empty, and where another
    /// thread is half through putting that post: [`OwnerEnd::is_empty`] tells these apart. It never waits.
    ///
    /// - `mailbox`, `stays`: as for `take`.
    /// - `some`: the post stands after those taken before.
    /// - `waited`: no more posts waited than the mailbox holds, and it before the others.
    /// - `from`: it is of another worker, for which the mailbox has an end.
    /// - `none`: nothing was taken.
    ///
    /// ```
    /// while let Some(post) = owner_end.try_take() {
    ///     let _ = heap.release(post.name);
    /// }
    /// ```
    pub fn try_take(&mut self) -> Option<Post>
        ensures mailbox { KeepsOwner self.old self.new }
        ensures stays { owner_extent self.new ≡ owner_extent self.old }
        ensures some { IfSome result (λ p. got_by self.new ≡ got_by self.old ++ p ∷ []) }
        ensures waited { IfSome result (λ p. (others : List Post) × OwnerSaw self.old (p ∷ others)) }
        ensures from { IfSome result (λ p. (p.from < out_of self.old) × (p.from ≢ owner_of self.old)) }
        ensures none { IfNone result (got_by self.new ≡ got_by self.old) }
    {
        self.queue.try_pop_as::<OneTake>(&mut self.pass)
    }

    /// Whether the mailbox was empty at one moment of the call. A post may have come since.
    ///
    /// - `mailbox`, `stays`, `same`: it stays the owner's end of its mailbox, takes no memory, and no post is taken.
    /// - `empty`: at `true`, of each poster all was taken that was known to have been put.
    ///
    /// ```
    /// let empty = owner_end.is_empty();        // true right after `mailbox`
    /// ```
    pub fn is_empty(&mut self) -> bool
        ensures mailbox { KeepsOwner self.old self.new }
        ensures stays { owner_extent self.new ≡ owner_extent self.old }
        ensures same { got_by self.new ≡ got_by self.old }
        ensures empty { IsTrue result → IsAllTaken self.new }
    {
        self.queue.is_empty_as::<OneTake>(&mut self.pass)
    }

    /// Waits until the mailbox is empty, which it is at once where every post that may come was taken. While posts are
    /// left it doesn't return, since nobody else takes them.
    ///
    /// - `mailbox`, `stays`, `same`: it stays the owner's end of its mailbox, takes no memory, and no post is taken.
    /// - `empty`: of each poster all was taken that was known to have been put.
    ///
    /// ```
    /// owner_end.wait_empty(rt);                // what waited was taken before
    /// ```
    pub fn wait_empty<R: Wait>(&mut self, rt: &R)
        ensures mailbox { KeepsOwner self.old self.new }
        ensures stays { owner_extent self.new ≡ owner_extent self.old }
        ensures same { got_by self.new ≡ got_by self.old }
        ensures empty { IsAllTaken self.new }
    {
        for _ in rt.forever() {
            if self.is_empty() {
                return;
            }
            yield_now();
        }
        unreachable!()
    }

    /// How many posts waited at one moment of the call, 0 to the mailbox's capacity.
    ///
    /// - `mailbox`, `stays`, `same`: it stays the owner's end of its mailbox, takes no memory, and no post is taken.
    /// - `most`: no more than the mailbox holds.
    /// - `count`: the posts taken of each poster, and after them these, begin with those that were known to have been put. Each is
    ///   of a poster.
    ///
    /// ```
    /// let waiting = owner_end.count(rt);       // 0 right after `mailbox`
    /// ```
    pub fn count<R: Wait>(&mut self, rt: &R) -> usize
        ensures mailbox { KeepsOwner self.old self.new }
        ensures stays { owner_extent self.new ≡ owner_extent self.old }
        ensures same { got_by self.new ≡ got_by self.old }
        ensures most { result ≤ most_of self.old }
        ensures count { (waiting : List Post) × (length waiting ≡ result) × OwnerSaw self.new waiting }
    {
        self.queue.len_as::<OneTake, R>(rt, &mut self.pass)
    }

    /// Tells the owner's end all that was put, with every end of its mailbox beside it. It takes no memory and doesn't wait.
    ///
    /// - It requires that the ends are all those of one mailbox, in the order in which [`crate::mailbox`] answered them. `put`,
    ///   `take` and `beside` keep it.
    /// - `beside`: nothing is put or taken. The posts of each poster that were taken, and then those that wait, are all that it has
    ///   put. From now on the owner's end knows that, and the poster's end knows which were taken. So no post is lost, doubled, or
    ///   overtaken by another of its poster. No more posts wait in all than the mailbox holds.
    /// - `stays`, `capacity`: the mailbox's posts stay where they lie, and the list of the ends keeps its room.
    ///
    /// ```
    /// owner_end.beside(&mut posters);
    /// while let Some(post) = owner_end.take(rt) {}       // all that was put before `beside`
    /// ```
    pub fn beside(&mut self, posters: &mut Vec<PosterEnd>)
        requires { IsWhole self.old posters.old.items }
        ensures beside { AllBeside self.old posters.old.items self.new posters.new.items }
        ensures stays { owner_extent self.new ≡ owner_extent self.old }
        ensures capacity { vec_capacity posters.new ≡ vec_capacity posters.old }
    {
        let own = self.number;
        come_back(&self.queue, &mut self.pass, own, posters);
    }
}
