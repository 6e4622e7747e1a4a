ghost use Rattle.std.specs.Prelude.{◌≡◌, ◌+◌, ◌≤◌, length, take};
ghost use Rattle.rtrb.specs.Ring.{sent, known_free};

use crate::mark::Mark;
use crate::post::Post;
use rtrb::Producer;

/// The end of a lane that sends posts. It may go into a thread of its own.
///
/// ```
/// let child = scope.spawn(move || post_end.put(post).is_ok())?;
/// ```
#[derive(Drop)]
pub struct PostEnd {
    // A post that goes in here may be taken at once.
    pub(crate) ring: Producer<Post>,
    // The ring as the last `beside` left it. It has no bytes.
    pub(crate) mark: Mark<Producer<Post>>,
    ghost marked: { length (sent mark.value) ≤ length (sent ring) },
    ghost before: { take (length (sent mark.value)) (sent ring) ≡ sent mark.value },
    ghost free: { known_free mark.value + length (sent mark.value) ≤ known_free ring + length (sent ring) },
}

#[tactic(auto, unfolding(crate::specs::Lanes::posts_sent, crate::specs::Lanes::free_slots, crate::specs::Lanes::capacity_of, crate::specs::Lanes::IsLane))]
impl PostEnd {
    ghost use Rattle.std.specs.Prelude.{◌≡◌, ◌-◌, ◌<◌, ◌≤◌, [], ◌∷◌, ◌++◌, length, take, IsOk, OnOk, IfErr};
    ghost use Rattle.tlsf_post.specs.Lanes.{posts_sent, free_slots, post_extent, KeepsPost};

    /// Sends a post, or gives it back where the lane is full as far as this end knows. The other end may take it at once.
    ///
    /// - `lane`: it stays an end of its lane.
    /// - `stays`: it takes no memory, so the lane's posts stay where they lie.
    /// - `ok`: on Ok the post stands behind those sent before, and one free slot less is known.
    /// - `full`: on Err the post is given back, and neither what was sent nor the known slots change.
    /// - `succeeds`: it is Ok wherever a free slot is known.
    ///
    /// ```
    /// match post_end.put(post) {
    ///     Ok(()) => {}                  // it comes out of the other end in its turn
    ///     Err(back) => keep(back),      // full: the same post, to be sent again later
    /// }
    /// ```
    pub fn put(&mut self, post: Post) -> Result<(), Post>
        ensures lane { KeepsPost self.old self.new }
        ensures stays { post_extent self.new ≡ post_extent self.old }
        ensures ok { OnOk result ((posts_sent self.new ≡ posts_sent self.old ++ post ∷ [])
            × (free_slots self.new ≡ free_slots self.old - 1)) }
        ensures full { IfErr result (λ back. (back ≡ post) × (posts_sent self.new ≡ posts_sent self.old)
            × (free_slots self.new ≡ free_slots self.old)) }
        ensures succeeds { 0 < free_slots self.old → IsOk result }
    {
        if self.ring.is_full() {
            return Err(post);
        }
        self.ring.push_reserved(post);
        Ok(())
    }

    /// Sends as many of the posts, from the first on, as this end sees slots for, and answers how many went. The other end
    /// sees them together, after one store.
    ///
    /// - `lane`, `stays`: as for `put`.
    /// - `most`: no more go than there are.
    /// - `sent`: those that went, in their order, stand after those sent before.
    /// - `slots`: for each that went one free slot less is known.
    /// - `succeeds`: where some did not go, at least as many went as free slots were known.
    ///
    /// ```
    /// let count = post_end.put_all(&posts);     // posts[count..] are to be sent again later
    /// ```
    pub fn put_all(&mut self, posts: &[Post]) -> usize
        ensures lane { KeepsPost self.old self.new }
        ensures stays { post_extent self.new ≡ post_extent self.old }
        ensures most { result ≤ length posts.now }
        ensures sent { posts_sent self.new ≡ posts_sent self.old ++ take result posts.now }
        ensures slots { free_slots self.new ≡ free_slots self.old - result }
        ensures succeeds { result < length posts.now → free_slots self.old ≤ result }
    {
        let (went, _) = self.ring.push_partial_slice(posts);
        went.len()
    }
}
