use crate::call::Call;
use crate::reply::Reply;

/// A call of a worker, and what it was answered. Each post that a drain takes has an entry of its own, a take, before
/// that of the drain.
#[derive(Clone, Copy, Debug, PartialEq, Eq)]
pub struct Entry {
    pub worker: u32,
    pub call: Call,
    pub reply: Reply,
}
