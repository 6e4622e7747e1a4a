//! One call for both levels.

/// Calls what is there of the one level or of the other.
///
/// ```text
/// at_level!(OfLevel, &mut self.of_level, heap => heap.reset())
/// ```
macro_rules! at_level {
    ($levels:ident, $of_level:expr, $there:ident => $call:expr) => {
        match $of_level {
            $levels::Four($there) => $call,
            $levels::Five($there) => $call,
        }
    };
}

pub(crate) use at_level;
