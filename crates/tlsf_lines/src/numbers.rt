ghost use Rattle.std.specs.Prelude.{◌≡◌, ◌<◌, ◌≤◌, MatchOption, None, Some, false, length, min, option_map, slice_index, take, true};
ghost use Rattle.std.specs.Char.{is_ascii_digit};
ghost use Rattle.std.specs.Str.{all_ascii_digits};
ghost use Rattle.std.specs.Str.Parse.{digits_value};
ghost use Rattle.tlsf_lines.specs.CutFields.{fields_left, fields_of, first_by, value_of};
ghost use Rattle.tlsf_lines.specs.Fields as spelled;
ghost use Rattle.tlsf_lines.specs.Fields.{number_within};

/// More than each number that a field may spell: a greater one counts as this.
const TOO_GREAT: u64 = 4_294_967_296;

// The digits that a text begins with: the number that they spell, or one that is too great, and how many they are.
fn leading_digits(text: &[u8]) -> (u64, usize)
    ensures number { result.0 ≡ min (digits_value 10 (take result.1 text.now)) 4294967296 }
    ensures digits { all_ascii_digits (take result.1 text.now) ≡ true }
    ensures end { result.1 ≤ length text.now }
    ensures stop { result.1 < length text.now → is_ascii_digit (slice_index text.now result.1) ≡ false }
{
    let mut number = 0u64;
    for (i, byte) in text.iter().enumerate() {
        if !byte.is_ascii_digit() {
            return (number, i);
        }
        number = (number * 10 + u64::from(*byte - b'0')).min(TOO_GREAT);
    }
    (number, text.len())
}

// The number of these digits, which spell it or a greater one; `None` where it has a leading zero or is out of the range.
fn judge(digits: &[u8], number: u64, least: u32, most: u32) -> Option<u32>
    requires some { 0 < length digits.now }
    requires number { number ≡ min (digits_value 10 digits.now) 4294967296 }
    ensures { value_of result ≡ number_within (least, most) digits.now }
{
    if digits.len() > 1 && digits[0] == b'0' {
        return None;
    }
    if number < u64::from(least) || number > u64::from(most) {
        return None;
    }
    Some(number as u32)
}

/// The number from `least` to `most` that a field of digits spells. It is `None` inside where it has a leading zero or is out of
/// that range. `None` where the field is empty or has another byte than a digit.
///
/// ```
/// // from 0 to 64, "8" is Some(Some(8)), "08" and "65" are Some(None), and "8x" is None
/// ```
#[tactic(auto, using(crate::proofs::DigitSteps::field_said))]
pub fn digits_in(field: &[u8], least: u32, most: u32) -> Option<Option<u32>>
    ensures { option_map value_of result ≡ spelled.digits_in (least, most) field.now }
{
    let (number, len) = leading_digits(field);
    if len < field.len() {
        return None;
    }
    if field.is_empty() {
        return None;
    }
    Some(judge(field, number, least, most))
}

/// The same of the first field, which a space ends, and the rest after that space, if there is one.
///
/// ```
/// // from 0 to 64, of "8 x" it is Some((Some(8), Some("x"))), of "8" Some((Some(8), None)), and of "8x" None
/// ```
#[tactic(auto, using(crate::proofs::DigitSteps::no_digit))]
pub fn first_digits_in(fields: &[u8], least: u32, most: u32) -> Option<(Option<u32>, Option<&[u8]>)>
    ensures { MatchOption result (first_by (λ f. spelled.digits_in (least, most) f) (fields_of fields.now) ≡ None)
        (λ found. first_by (λ f. spelled.digits_in (least, most) f) (fields_of fields.now) ≡ Some (value_of found.0, fields_left found.1)) }
{
    let (number, len) = leading_digits(fields);
    if len == 0 {
        return None;
    }
    let judged = judge(&fields[..len], number, least, most);
    if len == fields.len() {
        return Some((judged, None));
    }
    if fields[len] != b' ' {
        return None;
    }
    Some((judged, Some(&fields[len + 1..])))
}
