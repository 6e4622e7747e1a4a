use std::marker::Sync;

/// Where the workers of a race meet, as a test has them meet.
pub trait Gate: Sync {
    /// Is called in the thread of a worker before its call of number `index`, and once after its last call.
    fn pass(&self, worker: u32, index: u32);
}

/// A gate that stands open: it passes at once.
#[derive(Clone, Copy, Debug)]
pub struct OpenGate;

impl Gate for OpenGate {
    fn pass(&self, _worker: u32, _index: u32) {}
}
