ghost use Rattle.std.specs.Prelude.{◌≡◌, ◌+◌, ◌-◌, ◌*◌, ◌/◌, ◌%◌, ◌^◌, ◌<◌, ◌≤◌};

/// How a run of eight bytes or more lies in words: the end of one word, whole words, and the begin of one more.
#[derive(Clone, Copy)]
pub(crate) struct Run {
    /// How many of its bytes stand in a word that begins before it, 0 to 7.
    pub head: usize,
    /// The first word that begins in it.
    pub first: usize,
    /// How many words it has whole.
    pub whole: usize,
    /// The number of its bytes up to the end of the last whole word. 0 to 7 bytes are behind them.
    pub tail: usize,
}

impl Run {
    /// The run of `len` bytes, the first of which is byte `start` of the words.
    #[inline]
    pub(crate) fn of(start: usize, len: usize) -> Run
        requires least { 8 ≤ len }
        requires most { start + len + 7 < 2 ^ 64 }
        ensures head { result.head ≡ (8 - start % 8) % 8 }
        ensures first { result.first ≡ (start + 7) / 8 }
        ensures whole { result.whole ≡ (len - result.head) / 8 }
        ensures tail { result.tail ≡ result.head + 8 * result.whole }
    {
        let head = (8 - start % 8) % 8;
        let whole = (len - head) / 8;
        Run {
            head,
            first: start.div_ceil(8),
            whole,
            tail: head + 8 * whole,
        }
    }
}
