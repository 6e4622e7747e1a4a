use crate::parse_error::ParseError;
use crate::read_error::ReadError;
use crate::sink::WriteError;
use std::alloc::AllocError;

/// Why a trace was not run to its end: the fault's number, and the line that it was found in.
///
/// | `no` | Why | `line` |
/// |---|---|---|
/// | 6 | memory was refused | 0 |
/// | 11 | the first line is no header | 1 |
/// | 12 | a line has not its shape, or no line feed | from 2 |
/// | 13 | a number has a leading zero or is out of its range | from 2 |
/// | 14 | a label is made twice, used before it is made, or used by another worker in that phase | from 2 |
/// | 15 | the trace has too many bytes or lines, or no end | 0 |
/// | 16 | a read failed | 0 |
/// | 17 | a write failed | 0 |
///
/// ```
/// if let Err(fault) = script_in(alloc, text) && fault.no == 14 {
///     // the label of line fault.line is made twice, or used where it may not be
/// }
/// ```
#[derive(Clone, Copy, Debug, PartialEq, Eq)]
pub struct TraceFault {
    /// The fault's number.
    pub no: u32,
    /// The number of the faulty line, counted from 1, or 0 where no line is at fault.
    pub line: u32,
}

impl TraceFault {
    /// Memory was refused.
    pub const NO_MEMORY: TraceFault = TraceFault { no: 6, line: 0 };

    /// The trace has more bytes or lines than the program takes, or its end was not seen.
    pub const TOO_LONG: TraceFault = TraceFault { no: 15, line: 0 };

    /// A read of the trace answered an error.
    pub const READ: TraceFault = TraceFault { no: 16, line: 0 };

    /// A write or the flush answered an error, or a write took no byte.
    pub const WRITE: TraceFault = TraceFault { no: 17, line: 0 };
}

impl From<ReadError> for TraceFault {
    ghost use Rattle.std.specs.Prelude.{◌≡◌};
    ghost use Rattle.tlsf_lines.specs.TraceFaults.{fault_of_read};

    ghost from_gives = { λ error fault. fault ≡ fault_of_read error };

    fn from(error: ReadError) -> TraceFault {
        match error {
            ReadError::NoMemory => TraceFault::NO_MEMORY,
            ReadError::TooLong(_) => TraceFault::TOO_LONG,
            ReadError::Read => TraceFault::READ,
        }
    }
}

impl From<WriteError> for TraceFault {
    ghost use Rattle.std.specs.Prelude.{◌≡◌};
    ghost use Rattle.tlsf_lines.specs.TraceFaults.{write_fault};

    ghost from_gives = { λ _ fault. fault ≡ write_fault };

    fn from(_error: WriteError) -> TraceFault {
        TraceFault::WRITE
    }
}

impl From<ParseError> for TraceFault {
    ghost use Rattle.std.specs.Prelude.{◌≡◌};
    ghost use Rattle.tlsf_lines.specs.TraceFaults.{fault_of_parse};

    ghost from_gives = { λ error fault. fault ≡ fault_of_parse error };

    fn from(error: ParseError) -> TraceFault {
        match error {
            ParseError::NoMemory => TraceFault::NO_MEMORY,
            ParseError::At(fault, line) => TraceFault {
                no: fault.number(),
                line,
            },
        }
    }
}

impl From<AllocError> for TraceFault {
    ghost use Rattle.std.specs.Prelude.{◌≡◌};
    ghost use Rattle.tlsf_lines.specs.TraceFaults.{no_memory_fault};

    ghost from_gives = { λ _ fault. fault ≡ no_memory_fault };

    fn from(_error: AllocError) -> TraceFault {
        TraceFault::NO_MEMORY
    }
}
