//! A type that only stands for what may go to another thread.
use std::marker::PhantomData;

/// Stands for a type of which values may go to other threads, and for no other.
pub struct MayCross<T: Send> {
    kind: PhantomData<T>,
}

impl<T: Send> MayCross<T> {
    /// One for this type.
    ///
    /// ```text
    /// MayCross::<HeapSlot>::new()
    /// ```
    pub const fn new() -> MayCross<T> {
        MayCross { kind: PhantomData }
    }
}
