use crate::chunk::Chunk;
use crate::target::Target;

/// A call that a worker is asked to make.
#[derive(Clone, Copy, Debug, PartialEq, Eq)]
pub enum Call {
    /// Gives a block of the own heap that holds `len` bytes.
    Allocate {
        len: u32,
    },
    /// Releases a block of the own heap, or posts the name of another's block to its owner.
    Release {
        target: Target,
    },
    /// Writes bytes into a block of the own heap, from byte `at` of it on.
    Write {
        target: Target,
        at: u32,
        bytes: Chunk,
    },
    /// Reads `n` bytes of a block of the own heap, from byte `at` of it on.
    Read {
        target: Target,
        at: u32,
        n: u32,
    },
    /// Resizes a block of the own heap where it stands, so that it holds `len` bytes.
    Resize {
        target: Target,
        len: u32,
    },
    /// Takes the first post that waits from a worker, and releases what it names.
    Take {
        from: u32,
    },
    /// Takes what waits from all other workers, in rising number, until `most` posts were taken.
    Drain {
        most: u32,
    },
}
