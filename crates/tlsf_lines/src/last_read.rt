/// The result of the last read of an input.
#[derive(Clone, Copy, Debug, PartialEq, Eq)]
pub enum LastRead {
    /// It gave bytes, or there was none yet: more may come.
    Open,
    /// It gave none: the input has ended.
    Ended,
    /// It answered an error.
    Failed,
}
