//! Memory in place: collections, boxes and buffers on a heap that is proved and bounded.
//!
//! An [`Arena`] takes memory from `Global` once, cuts it into units, and lets a [`tlsf_heap::Heap`] decide who gets which. Word p
//! of the heap stands for unit p of the memory. The heap's words hold its headers and none of the memory's bytes, so nothing that
//! is written into a [`Block`] can harm a header. Each call but `report` and `free_units` makes at most 64 touches of the heap,
//! however large the block.
//!
//! [`LocalArena`] is one for std: a `&` to it is an allocator of one thread's collections. [`DefaultArena`] is that of level 4, in units of
//! 16 bytes.
//!
//! ```text
//! let arena = DefaultArena::open(alloc, 0, 1 << 16)?;               // 1 MiB in units of 16 bytes
//! let mut voices: Vec<f32, &DefaultArena> = Vec::with_capacity(&arena, 512)?;
//! voices.push(0.5)?;
//! ```
//!
//! The level of an arena, 4 or 5, is that of its heap. It says how fine its size classes are, and how many units an arena may have,
//! 2^20 or 2^24. The unit is 16, 32 or 64 bytes. Blocks are aligned to 16 bytes, whatever the unit, since `Global` aligns to no
//! more; a request for a greater alignment is refused.
#![tactic(auto)]

mod arena;
mod block;
mod book;
mod boxed;
mod buffer;
mod buffer_grant;
mod filled_block;
mod filled_piece;
mod husk;
mod local;
mod memory;
mod piece;
mod right;
mod search;
mod slot;
mod space;
mod units;

pub use arena::Arena;
pub use block::Block;
pub use filled_block::FilledBlock;
pub use filled_piece::FilledPiece;
pub use local::{DefaultArena, LocalArena};
pub use memory::Memory;
pub use piece::Piece;
pub use right::Right;
