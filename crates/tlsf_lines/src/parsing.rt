//! A text, read line by line: the one loop that judges a trace, whatever is made of its lines.
ghost use Rattle.std.specs.Prelude.{◌≡◌, ◌+◌, ◌<◌, ◌≤◌, ◌^◌, ◌∷◌, ◌++◌, List, [], length, IfErr, IfOk, OnOk};
ghost use Rattle.tlsf_lines.specs.Events.{maker_used};
ghost use Rattle.tlsf_lines.specs.Pieces.{pieces_of};
ghost use Rattle.tlsf_lines.specs.Ranges.{IsHeaderInRange};
ghost use Rattle.tlsf_lines.specs.Trace as spelled;
ghost use Rattle.tlsf_lines.specs.Views.{FailsAt, HasLines, Heads, Spells};
ghost use Rattle.tlsf_lines.specs.declared.line.Line.{Line as ALine};

use crate::header::{Header, header_in};
use crate::input::MOST_LINES;
use crate::labels::Labels;
use crate::line::{Line, judge_line};
use crate::line_fault::LineFault;
use crate::parse_error::ParseError;
use crate::pieces::cut_piece;
use std::alloc::{AllocError, Global};

/// The form that a trace becomes, one line after another: its list of lines, or its events.
pub trait FromLines {
    ghost use Rattle.std.specs.Prelude.{◌≡◌, ◌+◌, ◌<◌, ◌^◌, ◌∷◌, ◌++◌, List, [], length, IfOk, OnOk};
    ghost use Rattle.tlsf_lines.specs.Events.{maker_used};
    ghost use Rattle.tlsf_lines.specs.Trace as spelled;
    ghost use Rattle.tlsf_lines.specs.declared.header.Header.{Header as AHeader};
    ghost use Rattle.tlsf_lines.specs.declared.line.Line.{Line as ALine};

    // It was made of this header and of these lines, which stand here twice: the newest first, and in their order.
    ghost has: { Self → AHeader → List ALine → List ALine → Type 0 };

    // It was made of this trace, to its end.
    ghost is_of: { Self → spelled.Trace → Type 0 };

    /// Of the header alone, with room for `room` lines.
    fn begin(alloc: Global, header: Header, room: usize) -> Result<Self, AllocError>
        ensures { IfOk result (λ made. has made header [] []) };

    /// One line more. This event made the label that the line uses, where it uses one.
    fn add(&mut self, line: &Line, made: Option<u32>) -> Result<(), AllocError>
        requires { (header : AHeader) × (before : List ALine) × (lines : List ALine) × has self.old header before lines × (length lines < 2 ^ 20) }
        ensures { (header : AHeader) (before lines : List ALine) → has self.old header before lines
            → made ≡ maker_used header.workers before line.now
            → OnOk result (has self.new header (line.now ∷ before) (lines ++ line.now ∷ [])) };

    /// No line is left.
    fn end(&mut self) -> Result<(), AllocError>
        ensures { (header : AHeader) (before lines : List ALine) → has self.old header before lines
            → OnOk result (is_of self.new (record { header = header; lines = lines })) };
}

/// The fewest bytes of a line, as those of `d 0 1` with its line feed.
const LEAST_LINE: usize = 6;

// Room for as many lines as a text can have, so that most traces grow no list.
fn room_for_lines(text: &[u8]) -> usize
    ensures { result ≤ 32768 }
{
    (text.len() / LEAST_LINE).min(MOST_LINES)
}

// The header that a text begins with, and the text after its line.
#[tactic(auto, using(crate::proofs::EmptyText::empty_text), unfolding(crate::specs::Trace::trace_of))]
fn cut_header(text: &[u8]) -> Result<(Header, &[u8]), ParseError>
    ensures ok { IfOk result (λ cut. Heads text.now cut.0 cut.1.now) }
    ensures err { IfErr result (λ error. FailsAt error (spelled.trace_of text.now)) }
{
    if text.is_empty() {
        return Err(ParseError::At(LineFault::BadHeader, 1));
    }
    let (first, rest) = cut_piece(text);
    match header_in(first) {
        Some(header) => Ok((header, rest)),
        None => Err(ParseError::At(LineFault::BadHeader, 1)),
    }
}

// Adds the lines after a header, or answers the first that is none.
fn add_lines<M: FromLines>(
    alloc: Global,
    header: Header,
    text: &[u8],
    made: &mut M,
) -> Result<(), ParseError>
    requires range { IsHeaderInRange header }
    requires short { length text.now ≤ 2 ^ 20 }
    requires new { M.has made.old header [] [] }
    ensures ok { OnOk result (HasLines M.has header text.now made.new) }
    ensures err { IfErr result (λ error. FailsAt error (spelled.lines_in header.workers [] 2 (pieces_of text.now))) }
{
    let workers = header.workers;
    let mut labels = Labels::new(alloc);
    let mut rest = text;
    let mut number = 2;
    let mut events = 0;
    while !rest.is_empty() {
        let (piece, after) = cut_piece(rest);
        let (line, maker) = match judge_line(workers, &labels, piece) {
            Ok(judged) => judged,
            Err(fault) => return Err(ParseError::At(fault, number)),
        };
        made.add(&line, maker)?;
        labels.remember(&line, events)?;
        events += line.width(workers);
        number += 1;
        rest = after;
    }
    Ok(())
}

/// The form that a text becomes which spells a trace, or the text's first fault with the number of its line.
pub fn parse<M: FromLines + Drop>(alloc: Global, text: &[u8]) -> Result<M, ParseError>
    requires { length text.now ≤ 2 ^ 20 }
    ensures ok { IfOk result (λ made. (trace : spelled.Trace) × Spells text.now trace × M.is_of made trace) }
    ensures err { IfErr result (λ error. FailsAt error (spelled.trace_of text.now)) }
{
    let (header, rest) = cut_header(text)?;
    let mut made = M::begin(alloc, header, room_for_lines(rest))?;
    add_lines(alloc, header, rest, &mut made)?;
    made.end()?;
    Ok(made)
}
