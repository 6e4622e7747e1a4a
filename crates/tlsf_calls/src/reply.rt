use crate::chunk::Chunk;
use crate::crew_refusal::CrewRefusal;
use crate::took::Took;
use tlsf_heap::Name;

/// The answer to a call.
#[derive(Clone, Copy, Debug, PartialEq, Eq)]
pub enum Reply {
    /// The name of the block that was given.
    Made(Name),
    /// The block was released.
    Freed,
    /// The name was posted to the owner of its heap.
    Posted,
    /// This many bytes were written.
    Wrote(u32),
    /// The bytes that were read.
    Got(Chunk),
    /// The block was resized, and has its name as before.
    Resized,
    /// A post was taken.
    Took(Took),
    /// No post waited.
    Empty,
    /// A drain took this many posts.
    Drained(u32),
    /// Nothing was done, and why.
    Refused(CrewRefusal),
}
