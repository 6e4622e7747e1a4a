use std::collections::LinkedList;

/// The knowledge of a seat at the slots. It stands in contracts alone: no value of it is made.
pub enum Role<T> {
    /// The owner's: what is away by each slot, and the looks at slots, in order: the slot, and whether the value was home.
    Owns {
        out: LinkedList<Option<T>>,
        looks: LinkedList<(u64, bool)>,
    },
    /// The same, and what is to go out next.
    Sends {
        out: LinkedList<Option<T>>,
        looks: LinkedList<(u64, bool)>,
        at: u64,
        value: T,
    },
    /// The same, with what came home by a slot in hand.
    Takes {
        out: LinkedList<Option<T>>,
        looks: LinkedList<(u64, bool)>,
        at: u64,
    },
    /// A ticket's: the slot and the value that is away.
    Away {
        at: u64,
        value: T,
    },
    /// The same, with the slot in hand.
    Puts {
        at: u64,
        value: T,
    },
    /// The value was put back.
    Gave {
        at: u64,
        value: T,
    },
}
