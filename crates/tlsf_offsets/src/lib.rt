//! Offsets into memory that the program itself never touches: the buffers of a graphics card, a device's memory, a file.
//!
//! An [`OffsetArena`] cuts such memory into units of a given number of bytes and says where blocks of it lie. A heap of one word
//! for each unit decides, by good fit (ECRTS 2004). Nothing is stored in the memory itself, and each call but `usage` makes at most
//! 68 touches of the heap, however large the block is. Two spans that are held have no byte in common ([`spans_never_overlap`]).
//!
//! ```text
//! let mut arena = OffsetArena::<4>::open(alloc, 0, 65_536, 4_096)?;    // 256 MiB in units of 64 KiB
//! let vertices = arena.allocate(1_000_000)?;                           // Span { offset: 0, size: 1_048_576, .. }
//! arena.release(vertices.name)?;
//! ```
#![tactic(auto)]

mod laws;
mod offset_arena;
mod span;
mod usage;

pub use laws::spans_never_overlap;
pub use offset_arena::OffsetArena;
pub use span::Span;
pub use tlsf_heap::{Name, OpenFault, Refusal};
pub use usage::Usage;
