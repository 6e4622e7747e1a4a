ghost use Rattle.std.specs.Prelude.{◌≡◌};
ghost use Rattle.tlsf_lines.specs.Lines;

/// The kind of a line, by its first field.
#[derive(Clone, Copy)]
pub enum Keyword {
    /// `a`: a worker allocates a block and makes a label for it.
    Allocate,
    /// `f`: a worker releases the block of a label.
    Release,
    /// `p`: a worker writes bytes into the block of a label.
    Write,
    /// `g`: a worker reads bytes of the block of a label.
    Read,
    /// `d`: a worker drains posts.
    Drain,
    /// `phase`: a phase ends.
    Phase,
    /// `r`: a worker resizes the block of a label where it stands.
    Resize,
}

/// The keyword that a first field spells, or `None` where it spells none.
///
/// ```
/// // of "a" it is Keyword::Allocate, of "free" none
/// ```
pub fn keyword_of(field: &[u8]) -> Option<Keyword>
    ensures { result ≡ Lines.keyword_of Lines.keywords field.now }
{
    match field {
        b"a" => Some(Keyword::Allocate),
        b"f" => Some(Keyword::Release),
        b"p" => Some(Keyword::Write),
        b"g" => Some(Keyword::Read),
        b"d" => Some(Keyword::Drain),
        b"phase" => Some(Keyword::Phase),
        b"r" => Some(Keyword::Resize),
        _ => None,
    }
}
