ghost use Rattle.std.specs.Prelude.{◌≤◌, length};
ghost use Rattle.rtrb.specs.Ring.{received, consumer_capacity};

use crate::mark::Mark;
use crate::post::Post;
use rtrb::Consumer;

/// The end of a lane that takes posts, in the order in which they were sent. It may go into a thread of its own.
///
/// ```
/// let child = scope.spawn(move || take_end.take())?;
/// ```
#[derive(Drop)]
pub struct TakeEnd {
    pub(crate) ring: Consumer<Post>,
    // The ring as the last `beside` left it. It has no bytes.
    pub(crate) mark: Mark<Consumer<Post>>,
    ghost marked: { length (received mark.value) ≤ length (received ring) },
    ghost few: { consumer_capacity ring ≤ 1024 },
}

#[tactic(auto, unfolding(crate::specs::Lanes::waited, crate::specs::Lanes::taken, crate::specs::Lanes::ready, crate::specs::Lanes::IsLane))]
impl TakeEnd {
    ghost use Rattle.std.specs.Prelude.{◌≡◌, ◌<◌, ◌≤◌, [], ◌∷◌, ◌++◌, length, take, drop, IsSome, IfSome, IfNone};
    ghost use mathlib.Core.List.{IsPrefix};
    ghost use Rattle.tlsf_post.specs.Lanes.{waited, taken, ready, take_extent, KeepsTake};

    /// Takes the next post of those that were sent, or answers `None` where this end sees none.
    ///
    /// - `lane`: it stays an end of its lane.
    /// - `stays`: it takes no memory, so the lane's posts stay where they lie.
    /// - `waited`: what counts as having waited at the last `beside` stays the same.
    /// - `some`: a post stands after those taken before. It was the first of the ready ones where one was known to be ready. The
    ///   others stay ready in their order, and more may have come after them.
    /// - `none`: with `None` nothing was taken.
    /// - `succeeds`: a post comes wherever one is known to be ready.
    ///
    /// ```
    /// if let Some(post) = take_end.take() {
    ///     let _ = heap.release(post.name);
    /// }
    /// ```
    pub fn take(&mut self) -> Option<Post>
        ensures lane { KeepsTake self.old self.new }
        ensures stays { take_extent self.new ≡ take_extent self.old }
        ensures waited { waited self.new ≡ waited self.old }
        ensures some { IfSome result (λ p. (taken self.new ≡ taken self.old ++ p ∷ [])
            × IsPrefix (ready self.old) (p ∷ ready self.new)) }
        ensures none { IfNone result (taken self.new ≡ taken self.old) }
        ensures succeeds { 0 < length (ready self.old) → IsSome result }
    {
        if self.ring.is_empty() {
            return None;
        }
        Some(self.ring.pop_known())
    }

    /// How many of `wanted` posts are ready. It looks at what was sent where fewer are known. A slice of this many takes them all.
    ///
    /// - `lane`, `stays`, `waited`: as for `take`.
    /// - `taken`: nothing is taken.
    /// - `ready`: what was known to be ready still is, and more may have come after it.
    /// - `most`: no more than are wanted, and no more than are ready.
    /// - `all`: where fewer than are wanted, all that are ready.
    ///
    /// ```
    /// let count = take_end.look(8);            // 0 right after `lane`
    /// ```
    #[inline(always)]
    pub fn look(&mut self, wanted: usize) -> usize
        ensures lane { KeepsTake self.old self.new }
        ensures stays { take_extent self.new ≡ take_extent self.old }
        ensures waited { waited self.new ≡ waited self.old }
        ensures taken { taken self.new ≡ taken self.old }
        ensures ready { IsPrefix (ready self.old) (ready self.new) }
        ensures most { (result ≤ wanted) × (result ≤ length (ready self.new)) }
        ensures all { result < wanted → result ≡ length (ready self.new) }
    {
        if self.ring.cached_slots() < wanted {
            wanted.min(self.ring.slots())
        } else {
            wanted
        }
    }

    /// Takes as many posts as are ready and have a place in `posts`, and answers how many came. Their places are handed
    /// back together, with one store, so that a sender who spins disturbs the taking less. It fits where many wait; 64
    /// places are enough.
    ///
    /// - `lane`, `stays`, `waited`: as for `take`.
    /// - `most`: no more come than `posts` has places.
    /// - `came`: the posts in the first places, in their order, stand behind those taken before. They were the first of the ready
    ///   ones. The others stay ready in their order, and more may have come after them.
    /// - `rest`: the other places stay as they were.
    /// - `left`: where a place is left, none is ready afterwards, and all that were known to be ready came. So 0 for some
    ///   places says that none was ready at this look.
    ///
    /// ```
    /// let count = take_end.take_slice(&mut posts);     // 0: none was ready at this look
    /// for post in &posts[..count] {
    ///     let _ = heap.release(post.name);
    /// }
    /// ```
    pub fn take_slice(&mut self, posts: &mut [Post]) -> usize
        ensures lane { KeepsTake self.old self.new }
        ensures stays { take_extent self.new ≡ take_extent self.old }
        ensures waited { waited self.new ≡ waited self.old }
        ensures most { result ≤ length posts.old }
        ensures came { (taken self.new ≡ taken self.old ++ take result posts.new)
            × IsPrefix (ready self.old) (take result posts.new ++ ready self.new) }
        ensures rest { drop result posts.new ≡ drop result posts.old }
        ensures left { result < length posts.old → (ready self.new ≡ []) × (length (ready self.old) ≤ result) }
    {
        self.ring.pop_partial_slice(posts)
    }

    /// How many posts are known to be ready, 0 to 1,024. The next takes, this many, each answer one.
    ///
    /// ```
    /// let posts = take_end.count_ready();     // 0 right after `lane`
    /// ```
    pub fn count_ready(&self) -> u32
        ensures { result ≡ length (ready self.now) }
    {
        self.ring.cached_slots() as u32
    }
}
