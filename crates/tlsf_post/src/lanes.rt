#![tactic(auto, unfolding(crate::specs::Lanes::posts_sent, crate::specs::Lanes::free_slots, crate::specs::Lanes::capacity_of, crate::specs::Lanes::waited, crate::specs::Lanes::taken, crate::specs::Lanes::ready, crate::specs::Lanes::IsLane))]

ghost use Rattle.std.specs.Prelude.{◌≡◌, ◌+◌, ◌<◌, ◌≤◌, [], ◌++◌, length, IfOk};
ghost use Rattle.tlsf_post.specs.Lanes.{posts_sent, free_slots, capacity_of, post_extent, waited, taken, ready, take_extent, IsLane};

use crate::mark::Mark;
use crate::post_end::PostEnd;
use crate::take_end::TakeEnd;
use rtrb::RingBuffer;
use std::alloc::Global;
use tlsf_words::NoMemory;

/// Opens a lane that holds up to `capacity` posts, 1 to 1,024, and answers its two ends. It fails only for want of
/// memory, which no later call takes.
///
/// ```
/// let (mut post_end, mut take_end) = lane(alloc, 4)?;
/// let sent = post_end.put(post);      // Ok(())
/// let came = take_end.take();         // Some(post)
/// ```
///
/// - `lane`: the two are the ends of one lane.
/// - `post`: nothing was sent, and as many free slots are known as the capacity.
/// - `take`: nothing waited, nothing was taken, nothing is ready.
pub fn lane(alloc: Global, capacity: u32) -> Result<(PostEnd, TakeEnd), NoMemory>
    requires { (0 < capacity) × (capacity ≤ 1024) }
    ensures lane { IfOk result (λ r. IsLane r.0 r.1) }
    ensures post { IfOk result (λ r. (posts_sent r.0 ≡ []) × (free_slots r.0 ≡ capacity)
        × (capacity_of r.0 ≡ capacity)) }
    ensures take { IfOk result (λ r. (waited r.1 ≡ []) × (taken r.1 ≡ []) × (ready r.1 ≡ [])) }
{
    let (producer, consumer) = RingBuffer::new(alloc, capacity as usize)?;
    // The marks have no bytes. Contracts read off them what was sent and taken since.
    let post_mark = Mark::of(&producer);
    let take_mark = Mark::of(&consumer);
    let post = PostEnd {
        ring: producer,
        mark: post_mark,
    };
    let take = TakeEnd {
        ring: consumer,
        mark: take_mark,
    };
    Ok((post, take))
}

/// Tells both ends of a lane all: what was sent waits from then on, and the post end knows every free slot.
///
/// - It requires that the two are the ends of one lane. Those that one call of `lane` answered are, and `put`, `take`
///   and `beside` keep it.
/// - `lane`, `capacity`: they stay so, and the lane keeps its capacity.
/// - `stays`: it takes no memory, so the lane's posts stay where they lie.
/// - `order`: what was taken before, and then what waits now, is what had waited, and then what was sent. So no post is
///   lost, none is doubled, and none overtakes another.
/// - `fresh`: since now nothing was sent and nothing taken, and what waits is what is ready.
/// - `room`: the free slots are the capacity less the posts that wait.
///
/// ```
/// beside(&mut post_end, &mut take_end);
/// let posts = take_end.count_ready();     // so many takes answer a post each
/// ```
pub fn beside(post: &mut PostEnd, take: &mut TakeEnd)
    requires { IsLane post.old take.old }
    ensures lane { IsLane post.new take.new }
    ensures capacity { capacity_of post.new ≡ capacity_of post.old }
    ensures stays { (post_extent post.new ≡ post_extent post.old) × (take_extent take.new ≡ take_extent take.old) }
    ensures order { taken take.old ++ waited take.new ≡ waited take.old ++ posts_sent post.old }
    ensures fresh { (posts_sent post.new ≡ []) × (taken take.new ≡ []) × (ready take.new ≡ waited take.new) }
    ensures room { free_slots post.new + length (waited take.new) ≡ capacity_of post.new }
{
    post.ring.slots_beside(&mut take.ring);
    post.mark = Mark::of(&post.ring);
    take.ring.slots_beside(&mut post.ring);
    take.mark = Mark::of(&take.ring);
}
