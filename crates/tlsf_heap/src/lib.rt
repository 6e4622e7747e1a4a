//! A real-time heap over a region of 64-bit words: two-level segregated fit for one owner.
//!
//! A heap gives blocks of its region to those who ask, by good fit. Of the free blocks in a size class at or above the request's
//! search class it takes one of the least class. Of these it takes the one that became free last. A block of four words or more
//! above the wanted ones is split. A block that is released is merged at once with its free neighbours. So it is in "TLSF: A New
//! Dynamic Memory Allocator for Real-Time Systems" (Masmano, Ripoll, Crespo and Real, ECRTS 2004, sections 3 and 4).
//!
//! A block is known by its [`Name`]: the heap, the place where it begins, and the serial that it got when it became
//! live. A name that was forged, or that outlived its block, is refused.
//!
//! Contracts see a [`Heap`] as a list of blocks in the order of their places. Each call is one step of that list. The stored
//! words and start bits show the blocks before and after each call, and a refused call leaves every one of them. The words also
//! thread the free blocks of each class into a list: the one that became free last is its head.
//!
//! A [`Ledgered`] heap notes what is given and what comes back, by a [`Ledger`]: [`Counts`] are one. [`Heap::is_live`] tells whether a
//! live block has a name.
//!
//! A const parameter is the level of a heap, 4 or 5: how many bits of a size tell the second level of its class. A heap of level 5 has
//! finer classes and may have a greater region. All that contracts say, they say of both.
//!
//! They also count its touches. A touch is a read or write of a stored word, a start bit, the head of a list or a word of the
//! bitmaps. A release makes at most 64, however many blocks the region has. An allocate makes at most 64 and one for each payload
//! word of the block that it gives. A resize makes at most 64 and one for each payload word of the block that it leaves. The count
//! has no bytes at run time.
//!
//! A caller to whom each word stands for memory elsewhere says by [`Heap::allocate_words`] and [`Heap::resize_words`] how many a block has. These
//! make no word zero but the payload's, so that no request takes longer for more words.
//!
//! A caller who fills each payload himself takes [`Heap::allocate_unset`], [`Heap::resize_unset`] and [`Heap::resize_or_move_unset`]. These fill
//! nothing, so that no request takes longer for more bytes, and a move as long as the copy of those that stay. [`Heap::allocate_aligned`] begins
//! such a payload at a multiple of some words.
//!
//! A caller who keeps no names, as one who is handed an address, says by [`Heap::name_at`], [`Heap::release_at`] and
//! [`Heap::resize_or_move_unset_at`] at which word a block begins. A place at which none begins is refused, whatever lies there. [`Heap::check_blocks`] looks for blocks that other code
//! has written over.
#![tactic(auto)]

mod around;
mod check;
mod checked;
mod fitting;
mod headers;
mod heap;
mod laws;
mod ledger;
mod name;
mod open_fault;
mod payload;
mod placed_block;
mod refitting;
mod refusal;
mod region;
mod report;
mod tally;
mod usage;

pub use around::{check_around, check_taken};
pub use check::check_words;
pub use checked::Checked;
pub use heap::{Heap, want};
pub use laws::{
    aligned_blocks_fit, blocks_never_overlap, calls_are_steps, checks_have_one_answer,
    even_blocks_stay_even, grant_is_greatest, names_live_until_released, payload_words_stay,
    payloads_stay, places_name_blocks, refused_only_where_nothing_fits, resets_end_all_names,
    words_in_use_add_up,
};
pub use ledger::Ledger;
pub use ledger::counts::Counts;
pub use ledger::ledgered::Ledgered;
pub use name::Name;
pub use open_fault::OpenFault;
pub use placed_block::{Content, PlacedBlock};
pub use refusal::Refusal;
pub use report::Report;
pub use tlsf_class::most_words;
