use crate::plan::Plan;
use crate::post::Post;
use std::collections::LinkedList;

/// The knowledge of a pass of a mailbox's queue. It stands in contracts alone: no value of it is made.
pub struct View {
    /// Whether it is a poster's.
    pub posts: bool,
    /// Whether it is the owner's.
    pub takes: bool,
    /// The bounds that the mailbox is laid out for.
    pub plan: Plan,
    /// A poster's number. Of the owner, the number below which the posters are out.
    pub number: u32,
    /// The posts that a poster has put. Of the owner, what it knows that the posters had put.
    pub put: LinkedList<Post>,
    /// The posts that the owner has taken. Of a poster, what it knows to have been taken of its posts.
    pub got: LinkedList<Post>,
}
