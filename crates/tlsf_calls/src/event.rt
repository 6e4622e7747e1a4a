use crate::call::Call;

/// A call, and the number of the worker that makes it.
#[derive(Clone, Copy, Debug, PartialEq, Eq)]
pub struct Event {
    pub worker: u32,
    pub call: Call,
}
