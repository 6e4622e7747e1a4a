//! Whether a field says what its kind may say.
ghost use Rattle.std.specs.Prelude.{◌≡◌, is_some};
ghost use Rattle.tlsf_diagnosis.specs.Kinds;
ghost use Rattle.tlsf_lines.specs.Fields.{is_digits};
ghost use Rattle.tlsf_lines.specs.Header.{number_in};

use tlsf_lines::{Kind, chunk_in, digits_in};

/// How strictly a field is judged.
#[derive(Clone, Copy)]
pub enum Judge {
    /// By its shape: all digits, or payload bytes.
    Shape,
    /// By its number too, where there are this many workers.
    Number { workers: u32 },
}

/// Whether a field is all digits, one at least.
pub fn is_all_digits(field: &[u8]) -> bool
    ensures { result ≡ is_digits field.now }
{
    digits_in(field, 0, u32::MAX).is_some()
}

/// Whether a field spells a number in a range, without a leading zero.
pub fn is_number_within(field: &[u8], least: u32, most: u32) -> bool
    ensures { result ≡ is_some (number_in (least, most) field.now) }
{
    match digits_in(field, least, most) {
        Some(Some(_)) => true,
        Some(None) | None => false,
    }
}

/// Whether the field passes as one of this kind.
pub fn passes(judge: Judge, kind: Kind, field: &[u8]) -> bool
    ensures { result ≡ Kinds.passes judge kind field.now }
{
    if !kind.is_number() {
        return chunk_in(field).is_some();
    }
    match judge {
        Judge::Shape => is_all_digits(field),
        Judge::Number { workers } => {
            let (least, most) = kind.range(workers);
            is_number_within(field, least, most)
        }
    }
}
