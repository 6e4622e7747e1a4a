ghost use Rattle.std.specs.Prelude.{ℕ};
ghost use Rattle.tlsf_class.specs.Classes.{IsLevel};
ghost use Rattle.tlsf_yard_laws.specs.Carriers.{OverLanes, OverQueues};
ghost use Rattle.tlsf_yard_laws.specs.Moments.{OrdersHaveMoments, RaceSharedMixedSizesServe};
ghost use Rattle.tlsf_yard_laws.specs.Sharing.{SharedMixedSizesServe};

/// How large the heap of a worker must be, by what the programs hold and by what the lanes hold.
///
/// A block counts as held from the allocate that gave it until a release of its name is accepted from anybody. It is `Freed` by its
/// owner, or `Posted` by another worker. So a program that is done with a block need not know when its owner drains. Blocks whose
/// names are under way are bounded by the lanes. Each of the n - 1 lanes that lead to a worker holds up to C posts. Take a heap
/// with the words of `tlsf_pool::mixed_sizes_suffice` for `most` + (n - 1) * C blocks of `len` bytes. It serves each request of its
/// worker that is for at most `len` bytes and is made while fewer than `most` are held. This holds as long as the ticks last and
/// its worker resizes no block to more than `len` bytes. Nothing is asked of when a worker drains, and posts of forged or doubled
/// names change nothing.
///
/// ```text
/// two workers, lanes of 8 posts, at most 100 blocks of worker 0 held, of up to 512 bytes:
/// the words for 108 blocks, 14,727
/// ```
pub fn lanes_add_their_capacity()
    ensures { (sli : ℕ) → IsLevel sli → SharedMixedSizesServe sli }
{}

/// The same in a race over lanes, at the moments of its owner's requests.
///
/// A moment of the owner's record is how far it has come, and with it how far each other worker has come. The part of that worker's
/// record has all posts that the owner took from it, and at most C posts more, those under way. The blocks that the owner's answers
/// leave live are held by the programs, but for those whose names are under way. Take a heap with the words of
/// `tlsf_pool::mixed_sizes_suffice` for `most` + (n - 1) * C blocks of `len` bytes. It serves each request of its worker for at
/// most `len` bytes at each such moment at which fewer than `most` are held. This holds as long as the ticks last and its worker
/// resizes no block to more than `len` bytes.
///
/// So it is enough that one moment which the records admit is sparing, for each request by itself. No clause says that the calls of
/// a race have an order in which no lane is overfull. A record orders no post against another worker's take.
///
/// ```text
/// worker 0: Allocate(8): Made(x), Allocate(8): Made(y), Take(1): Took(x, Ok)      worker 1: Release(x): Posted
/// at worker 0's second request x is held where worker 1 has told nothing yet, and under way where it has told its release
/// ```
pub fn race_adds_its_lanes()
    ensures served { (sli : ℕ) → IsLevel sli → RaceSharedMixedSizesServe sli OverLanes }

    // Take any one order of all calls in which each post is taken after it was made and no lane is ever overfull. Then there is a
    // moment before each request at which the posts that wait are under way.
    ensures moments { (sli : ℕ) → OrdersHaveMoments sli OverLanes }
{}

/// The same in a race over queues: one queue leads to a worker, which holds up to C posts of all others together.
///
/// So the heap needs the words of `tlsf_pool::mixed_sizes_suffice` for `most` + C blocks of `len` bytes, however many workers there
/// are. A moment is as in [`race_adds_its_lanes`], but at most C posts are under way in all. The order in which those of several
/// workers stand in the queue is free.
///
/// ```text
/// eight workers, queues of 8 posts, at most 100 blocks of worker 0 held, of up to 512 bytes:
/// the words for 108 blocks, 14,727; over lanes of 8 posts those of 156, 21,303
/// ```
pub fn race_adds_its_queue()
    ensures served { (sli : ℕ) → IsLevel sli → RaceSharedMixedSizesServe sli OverQueues }

    // Take any one order of all calls in which each post is taken after it was made and no queue is ever overfull. Then there is a
    // moment before each request.
    ensures moments { (sli : ℕ) → OrdersHaveMoments sli OverQueues }
{}
