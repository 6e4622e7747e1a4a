//! The calls of `bc` to `malloc` that compute 2^30, as `examples/calculator.trace` has them, and the table of their kinds, merged
//! for eight pools.
use tlsf_pool::Kind;

/// How many blocks of each length the program holds at once, at most.
pub const TABLE: [Kind; 8] = [
    Kind { most: 12, len: 16 },
    Kind { most: 8, len: 40 },
    Kind { most: 2, len: 64 },
    Kind { most: 5, len: 256 },
    Kind {
        most: 32,
        len: 1024,
    },
    Kind { most: 1, len: 1792 },
    Kind { most: 1, len: 4096 },
    Kind {
        most: 1,
        len: 16_386,
    },
];

/// The requests of the program.
pub enum Call {
    /// A number of blocks, one after another, of a number of bytes each.
    Ask(u32, u32),
    /// Take back the block of this number. They are numbered from 0 on, as they were asked for.
    Free(usize),
}

/// In their order.
pub const CALLS: [Call; 49] = [
    Call::Ask(1, 1792),
    Call::Ask(1, 256),
    Call::Ask(32, 1024),
    Call::Ask(1, 7),
    Call::Ask(4, 256),
    Call::Ask(1, 40),
    Call::Ask(1, 1),
    Call::Ask(1, 40),
    Call::Ask(1, 1),
    Call::Ask(1, 40),
    Call::Ask(1, 1),
    Call::Ask(1, 64),
    Call::Ask(1, 8),
    Call::Ask(1, 64),
    Call::Ask(1, 16386),
    Call::Ask(1, 2),
    Call::Free(49),
    Call::Ask(1, 3),
    Call::Free(50),
    Call::Ask(1, 40),
    Call::Ask(1, 1),
    Call::Ask(1, 16),
    Call::Ask(1, 40),
    Call::Ask(1, 2),
    Call::Ask(1, 16),
    Call::Ask(1, 40),
    Call::Ask(1, 3),
    Call::Ask(1, 40),
    Call::Ask(1, 3),
    Call::Ask(1, 40),
    Call::Ask(1, 4),
    Call::Free(58),
    Call::Ask(1, 5),
    Call::Free(60),
    Call::Ask(1, 6),
    Call::Free(62),
    Call::Ask(1, 7),
    Call::Free(63),
    Call::Ask(1, 11),
    Call::Free(64),
    Call::Free(65),
    Call::Free(55),
    Call::Free(56),
    Call::Free(52),
    Call::Free(53),
    Call::Ask(1, 16),
    Call::Ask(1, 4096),
    Call::Ask(1, 16),
    Call::Free(67),
];
