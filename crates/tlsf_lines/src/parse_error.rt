ghost use Rattle.std.specs.Prelude.{◌≡◌};
ghost use Rattle.tlsf_lines.specs.declared.parse_error.ParseError.TheVariants.{NoMemory};

use crate::line_fault::LineFault;
use std::alloc::{AllocError, AllocFailed};

/// Why a text gave no trace.
#[derive(Clone, Copy)]
pub enum ParseError {
    /// There was no memory for the trace.
    NoMemory,
    /// The fault of the first faulty line, and that line's number, counted from 1.
    At(LineFault, u32),
}

impl From<AllocError> for ParseError {
    ghost from_gives = { λ _ e. e ≡ NoMemory };

    fn from(_e: AllocError) -> ParseError {
        ParseError::NoMemory
    }
}

impl<T: Drop> From<AllocFailed<T>> for ParseError {
    ghost from_gives = { λ _ e. e ≡ NoMemory };

    fn from(_e: AllocFailed<T>) -> ParseError {
        ParseError::NoMemory
    }
}
