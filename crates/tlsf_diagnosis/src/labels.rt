//! Where a label was made.
use crate::spot::field_in;
use tlsf_lines::cut_piece;

/// The line that made a label, and the last line before the use that ended a phase, both counted from 1.
#[derive(Clone, Copy)]
pub struct Making {
    /// The line that made the label; none where no line did.
    pub line: Option<u32>,
    /// The last line that ended a phase, or 0 where none did.
    pub phase_end: u32,
}

impl Making {
    /// Whether no phase has ended since the label was made.
    pub fn is_in_phase(self) -> bool {
        self.line.is_some_and(|line| line > self.phase_end)
    }
}

/// Where the lines before line `until` make the label that is spelled so. They are good, and a number has one spelling, so
/// labels are compared as they are spelled.
pub fn making_of(text: &[u8], label: &[u8], until: u32) -> Making {
    let mut making = Making {
        line: None,
        phase_end: 0,
    };
    let mut rest = text;
    for number in 1..until {
        if rest.is_empty() {
            break;
        }
        let (piece, after) = cut_piece(rest);
        let word = field_in(piece, 1);
        if word == b"phase".as_slice() {
            making.phase_end = number;
        } else if word == b"a".as_slice() && field_in(piece, 3) == label {
            making.line = Some(number);
        }
        rest = after;
    }
    making
}
