//! Pictures of heaps: where each block lies, what it holds, and how well the free words serve.
//!
//! [`write_svg`] makes one picture of some heaps with equally many words. A heap is rows of words, read as a text is, each with the
//! place of its first word. A block is a rectangle in each row that it touches, as wide as its words in that row. Of three or more
//! rows that show words of one block alone, all alike, one is drawn for all. A live block shows its header and what its payload
//! leaves empty, and its label and its bytes where there is room. A free one is the darker, the longer it is free, and the greatest
//! are framed. Above each heap stand the words of a row and the numbers of its [`Report`](tlsf_heap::Report). Neighbours that are
//! too narrow to be seen are drawn as one.
//!
//! [`write_text`] makes one in the characters of a terminal, each for as many words as the picture says. Of up to 64 words it shows
//! the first, and of more how many are live. [`write_page_head`], [`write_moment`] and [`write_page_foot`] make an HTML page. It
//! shows heaps at one moment at a time, and goes to the lines that are named of each.
//!
//! Contracts see what a picture tells of its heaps (`specs/Told.antt`): the title of each, and on a page all its blocks. No clause says
//! how a picture looks: that is tested.
#![tactic(auto)]

mod columns;
mod density;
mod drawn_blocks;
mod fold;
mod free_blocks;
mod grid;
mod group;
mod html;
mod mapped_heap;
mod marks;
mod named_lines;
mod numbers;
mod page;
mod rectangles;
mod text_page;
mod title;

pub use html::{write_moment, write_page_foot, write_page_head};
pub use mapped_heap::{LabelledBlock, MappedHeap};
pub use named_lines::NamedLines;
pub use page::write_svg;
pub use text_page::write_text;
