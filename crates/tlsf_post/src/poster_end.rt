ghost use Rattle.std.specs.Prelude.{◌≡◌, ◌<◌, [], true, false};
ghost use Rattle.std.specs.Arc.{arc_value};
ghost use Rattle.crossbeam_queue.specs.Passes.{view, ruled_capacity};
ghost use Rattle.tlsf_post.specs.Rule.{posts_of, MayPut};

use crate::post::Post;
use crate::rule::{OnePut, Queue};
use crate::view::View;
use crossbeam_queue::Pass;
use std::alloc::Global;
use std::sync::{Arc, Wait};
use tlsf_heap::Name;

/// The end of a mailbox through which one worker puts posts. It may go into a thread of its own.
///
/// ```
/// let child = scope.spawn(move || poster_end.put(rt, name).is_ok())?;
/// ```
#[derive(Drop)]
pub struct PosterEnd {
    pub(crate) queue: Arc<Queue, Global>,
    // The posts that were put. It has no bytes.
    pub(crate) pass: Pass<Post, View>,
    pub(crate) from: u32,
    ghost place: { pass.table_id ≡ (arc_value queue).table.shared.table_id },
    ghost whole: { pass.me.1 ≡ [] },
    ghost posts: { (view pass).posts ≡ true },
    ghost takes: { (view pass).takes ≡ false },
    ghost number: { (view pass).number ≡ from },
    ghost room: { (view pass).plan.capacity ≡ ruled_capacity (arc_value queue) },
    ghost may_put: { MayPut (view pass).plan (view pass).number },
    ghost owned: { (view pass).plan.owner < (view pass).plan.workers },
    ghost signed: { posts_of from (view pass).put ≡ (view pass).put },
}

impl PosterEnd {
    ghost use Rattle.std.specs.Prelude.{◌≡◌, List, [], ◌∷◌, ◌++◌, length, false, IsTrue, OnOk, IfErr};
    ghost use Rattle.tlsf_post.specs.declared.post.Post.{Post};
    ghost use Rattle.tlsf_post.specs.Mailboxes.{number_of, put_by, plan_of, PosterSaw, IsOnlyPoster, HasFilled, poster_extent, KeepsPoster};

    /// Puts a post that names a block, or gives the name back where the mailbox was full at one moment of the call. The
    /// owner may take the post at once. It may spin while a post is half put or taken by another thread, and so needs
    /// `Wait`.
    ///
    /// - `mailbox`: it stays an end of its mailbox, with its number.
    /// - `stays`: it takes no memory, so the mailbox's posts stay where they lie.
    /// - `ok`: on Ok a post of this end's number, with the name, stands after those put before.
    /// - `waits`: no more posts waited with it than the mailbox holds, each of a poster of it, and it after the others.
    /// - `full`: on Err the name is given back, and what was put doesn't change.
    /// - `was_full`: as many posts waited as the mailbox holds, each of a poster of it. This end's were the last that it had put.
    /// - `alone`: where nobody else puts into the mailbox they were all this end's. So it had put the mailbox's capacity, besides
    ///   those that it knows to have been taken.
    ///
    /// ```
    /// match poster_end.put(rt, name) {
    ///     Ok(()) => {}                  // it comes out at the owner's end, behind what this end put before
    ///     Err(back) => keep(back),      // full: the same name, to be put again later
    /// }
    /// ```
    pub fn put<R: Wait>(&mut self, rt: &R, name: Name) -> Result<(), Name>
        ensures mailbox { KeepsPoster self.old self.new }
        ensures stays { poster_extent self.new ≡ poster_extent self.old }
        ensures ok { OnOk result (put_by self.new ≡ put_by self.old ++ record { from = number_of self.old; name = name } ∷ []) }
        ensures waits { OnOk result ((others : List Post) × PosterSaw self.new (others ++ record { from = number_of self.old; name = name } ∷ [])) }
        ensures full { IfErr result (λ back. (back ≡ name) × (put_by self.new ≡ put_by self.old)) }
        ensures was_full { IfErr result (λ _. (waiting : List Post) × (length waiting ≡ (plan_of self.old).capacity) × PosterSaw self.old waiting) }
        ensures alone { IfErr result (λ _. IsOnlyPoster self.old → HasFilled self.old) }
    {
        let post = Post {
            from: self.from,
            name,
        };
        match self.queue.push_as::<OnePut, R>(rt, &mut self.pass, post) {
            Ok(()) => Ok(()),
            Err(back) => Err(back.name),
        }
    }

    /// Puts a post that names a block by one attempt, and says whether it went in. It fails where the mailbox is full, and where
    /// another thread is half through a step of its own: [`PosterEnd::is_full`] tells these apart. It never waits.
    ///
    /// - `mailbox`: it stays an end of its mailbox, with its number.
    /// - `stays`: it takes no memory, so the mailbox's posts stay where they lie.
    /// - `went`: at `true` a post of this end's number, with the name, stands after those put before.
    /// - `waits`: no more posts waited with it than the mailbox holds, each of a poster of it, and it after the others.
    /// - `missed`: at `false` what was put doesn't change.
    ///
    /// ```
    /// if !poster_end.try_put(name) {
    ///     keep(name);                   // full, or in another's way: to be put again later
    /// }
    /// ```
    pub fn try_put(&mut self, name: Name) -> bool
        ensures mailbox { KeepsPoster self.old self.new }
        ensures stays { poster_extent self.new ≡ poster_extent self.old }
        ensures went { IsTrue result → put_by self.new ≡ put_by self.old ++ record { from = number_of self.old; name = name } ∷ [] }
        ensures waits { IsTrue result → (others : List Post) × PosterSaw self.new (others ++ record { from = number_of self.old; name = name } ∷ []) }
        ensures missed { result ≡ false → put_by self.new ≡ put_by self.old }
    {
        let from = self.from;
        let post = Post { from, name };
        match self.queue.try_push_as::<OnePut>(&mut self.pass, post) {
            Ok(()) => true,
            Err(_) => false,
        }
    }

    /// Whether the mailbox was full at one moment of the call. It never waits, and a post may have been taken since.
    ///
    /// - `mailbox`, `stays`, `same`: it stays an end of its mailbox, takes no memory, and nothing is put.
    /// - `full`: at `true` as many posts waited as the mailbox holds, each of a poster of it. This end's were the last that it had
    ///   put.
    /// - `alone`: where nobody else puts into the mailbox, it had put the mailbox's capacity besides those that it knows to have
    ///   been taken.
    ///
    /// ```
    /// let full = poster_end.is_full();         // false right after `mailbox`
    /// ```
    pub fn is_full(&mut self) -> bool
        ensures mailbox { KeepsPoster self.old self.new }
        ensures stays { poster_extent self.new ≡ poster_extent self.old }
        ensures same { put_by self.new ≡ put_by self.old }
        ensures full { IsTrue result → (waiting : List Post) × (length waiting ≡ (plan_of self.old).capacity) × PosterSaw self.old waiting }
        ensures alone { IsTrue result → IsOnlyPoster self.old → HasFilled self.old }
    {
        self.queue.is_full_as::<OnePut>(&mut self.pass)
    }
}
