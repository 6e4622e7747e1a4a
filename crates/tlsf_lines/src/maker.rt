/// Who made a label, and when.
#[derive(Clone, Copy)]
pub struct Maker {
    /// The worker of its `a` line.
    pub worker: u32,
    /// The phase of that line, from 0.
    pub phase: u32,
    /// The number of the event that makes it, counted from 0. Where lines become no events, it says nothing.
    pub event: u32,
}
