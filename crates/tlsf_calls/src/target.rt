use tlsf_heap::Name;

/// The name that a call of a list of events means.
#[derive(Clone, Copy, Debug, PartialEq, Eq)]
pub enum Target {
    /// This name.
    Named(Name),
    /// The name that the event of this number made, counted from 0. It is none where that event made none, or is not
    /// an earlier one.
    Made(u32),
    /// No name.
    Absent,
}
