use tlsf_heap::Name;

/// The message of a lane: the name of a block of the heap that the lane leads to, which its owner is asked to release.
///
/// ```
/// let post = Post { from: 1, name };     // worker 1 asks the owner of heap `name.heap` to release the block
/// ```
#[derive(Clone, Copy, Debug, PartialEq, Eq, Hash)]
pub struct Post {
    /// The number of the worker that posts.
    pub from: u32,
    /// The name of the block, as the heap gave it. Only the owner says whether it is stale.
    pub name: Name,
}
