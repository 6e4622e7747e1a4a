//! Heaps that never refuse for want of room, and the laws by which they don't.
//!
//! # Heaps
//!
//! Who opens a [`Pool`] writes two numbers: how many blocks are held at once, at most, and how many bytes a request has, at most.
//! Each block takes the words of the longest request, and the region has just the words that [`fixed_size_suffices`] asks for. An
//! allocate then gives a block whenever fewer are held, the request is no longer, and the tick isn't at its last value. No other
//! refusal is left: `NoFit` is no answer that it has.
//!
//! ```text
//! let mut pool = Pool::<4>::open(alloc, 0, 100, 512, 0)?;    // 100 blocks of up to 512 bytes: 6,800 words
//! let name = pool.allocate(512)?;
//! ```
//!
//! A [`TablePool`] has a table of kinds. For each kind of request it has how many blocks are held at once, and how many bytes such
//! a request has, both at most. Each block takes the words of the longest kind of which one may be held. Its heap has just the
//! words that [`fixed_size_suffices`] asks for. A block counts for the first row of the table that is long enough for it. So the
//! rows rise in `len`: [`falling_row`] finds one that doesn't.
//!
//! ```text
//! let kinds = [Kind { most: 100, len: 64 }, Kind { most: 4, len: 4096 }];
//! let mut pool = TablePool::<4>::open(alloc, 0, &kinds, 0)?;        // 56,576 words
//! let name = pool.allocate(4096)?;
//! ```
//!
//! [`Pools`] are several such heaps for one table, in the fewest words.
//!
//! # Sizes
//!
//! Of a pool, [`fixed_region`] tells the words for one kind, and [`fixed_kinds_words`] those for several. [`cheapest_split`] tells
//! how these are given to several heaps by the fewest words. Of a heap whose blocks have the words of their own requests,
//! [`mixed_region`] tells the words for one kind, and [`kinds_words`] those for several. [`one_large_words`] tells how many are
//! enough for one large block beside small ones. [`most_blocks`] and [`longest_request`] tell how far the greatest region goes.
//!
//! # Laws
//!
//! Each law is the contract of a function that does nothing. It speaks of the model of a heap that the contracts of
//! `tlsf_heap::Heap` name. So it holds of every heap, whatever calls were made on it.
//!
//! | A user knows | So | Law |
//! |---|---|---|
//! | how many words are free, and how many blocks are live | whether a request finds room, however the free words are cut up | [`enough_free_words_serve`] |
//! | the greatest number of blocks held at once, and the greatest request | how many words of region are enough for ever | [`mixed_sizes_suffice`] |
//! | the same, and gives each block the words of the greatest | about half as many | [`fixed_size_suffices`] |
//! | a table of sizes, with how many of each may be held | the same by sums | [`kinds_suffice`] |
//! | the same, with one block in it that is longer than all others, and no resize | fewer words where it is much longer | [`one_large_suffices`] |
//! | what the live blocks were asked for | how many words they take at most | [`blocks_are_snug`] |
//!
//! A program counts what it holds by the answers that it gets: one more after each accepted allocate, one fewer after each
//! accepted release. So the premises name nothing of the heap.
//!
//! To its user a heap is a map from live names to bytes ([`heap_is_a_map`]). No word lies in the blocks of two live names
//! ([`names_share_no_word`]), and a heap whose blocks were all released is whole again ([`whole_again`]). When a request is
//! refused is said exactly by `tlsf_heap::refused_only_where_nothing_fits`.
#![tactic(auto)]

mod kind;
mod laws;
mod pools;
mod sizes;

pub use kind::Kind;
pub use laws::contents::heap_is_a_map;
pub use laws::fixed_size::fixed_size_suffices;
pub use laws::kinds::kinds_suffice;
pub use laws::mixed_sizes::mixed_sizes_suffice;
pub use laws::one_large::one_large_suffices;
pub use laws::places::{names_share_no_word, whole_again};
pub use laws::room::{blocks_are_snug, enough_free_words_serve};
pub use pools::one::{One, Pool, PoolCalls};
pub use pools::pool_refusal::PoolRefusal;
pub use pools::pools::Pools;
pub use pools::row_counts::RowCounts;
pub use pools::table::{Table, TablePool, TablePoolCalls};
pub use sizes::fixed_size::{fixed_kinds_words, fixed_region};
pub use sizes::greatest::{longest_request, most_blocks};
pub use sizes::one_large::one_large_words;
pub use sizes::region::mixed_region;
pub use sizes::rising::falling_row;
pub use sizes::sizing::{kinds_words, most_bytes};
pub use sizes::split::{
    MOST_HEAPS, MOST_SPLIT, Split, cheapest_split, kinds_are_split_one_way, rising_split,
};
