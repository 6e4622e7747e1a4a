ghost use Rattle.std.specs.Prelude.{◌≡◌};
ghost use base.Fml.{ftrue};

use std::marker::{Model, PhantomData, Send};

/// A value as contracts saw it. It has no bytes and owns nothing, so it may go to any thread.
///
/// It says what std's `Snapshot` says. But the search for `Send` gives up at its limit at a struct that has a `Snapshot` beside an
/// end of a ring. For a `Mark` the proof stands with the type, where the search finds it at once. So whatever holds the end of a
/// lane, as a worker, moves into a thread with no proof of its own.
pub(crate) struct Mark<T> {
    marker: PhantomData<T>,
    pub ghost value: { T },
}

impl<T> Model for Mark<T> {
    ghost also_owns = { λ _. ftrue };
}

impl<T> Mark<T> {
    /// Remembers a value as it is.
    pub(crate) fn of(x: &T) -> Mark<T>
        ensures { result.value ≡ x.now }
    {
        let _ = x;
        Mark {
            marker: PhantomData,
        }
    }
}

// A struct with `also_owns` has it by no other way. This one owns nothing.
unsafe impl<T> Send for Mark<T> {}

impl<T> Drop for Mark<T> {
    fn drop(self) {
        let Self { marker: _ } = self;
    }
}
