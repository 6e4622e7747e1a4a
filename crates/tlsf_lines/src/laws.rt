ghost use Rattle.std.specs.Prelude.{ℕ, List};
ghost use Rattle.tlsf_lines.specs.Laws.{IsFirstFault};
ghost use Rattle.tlsf_lines.specs.Pieces.{ArePieces, pieces_of};
ghost use Rattle.tlsf_lines.specs.declared.line_fault.LineFault.{LineFault};

/// The fault that a text is refused with is its first: the header and the lines before it are
/// good, and that line alone fails.
///
/// Fault 13 in line 4 says, for one, that the header is good, and so are lines 2 and 3 after it. The next one, line 4, has a bad
/// number.
pub fn first_fault()
    ensures { (text : List ℕ) (fault : LineFault) (line : ℕ) → IsFirstFault text fault line }
{}

/// The pieces of a text, joined, are the text, and they are cut behind its line feeds alone.
///
/// `"ab\nc"`, for one, has the pieces `"ab\n"` and `"c"`.
pub fn pieces_join()
    ensures { (text : List ℕ) → ArePieces text (pieces_of text) }
{}
