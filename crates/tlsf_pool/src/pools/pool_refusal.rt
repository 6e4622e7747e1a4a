use thiserror::Error;

/// Why a pool refuses an allocate. The pool is then as before.
#[derive(Clone, Copy, Debug, PartialEq, Eq, Error)]
pub enum PoolRefusal {
    /// The request is for more bytes than the pool was opened for.
    #[error("the request is longer than the pool serves")]
    TooLong,
    /// As many blocks are held as the pool was opened for.
    #[error("as many blocks are held as may be")]
    Full,
    /// The tick is at its last value, so nothing can change any more.
    #[error("the tick is at its last value")]
    Worn,
}
