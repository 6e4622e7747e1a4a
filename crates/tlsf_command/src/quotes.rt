//! A name as a shell reads it.
ghost use Rattle.std.specs.Prelude.{◌≡◌, ◌++◌, flat_map, IfOk, OnOk, string_bytes};
ghost use Rattle.std.specs.List.{list_all};
ghost use Rattle.tlsf_command.specs.Quotes as shell;

use std::alloc::{AllocError, Global};

// Whether the byte stands for itself.
fn is_plain(byte: u8) -> bool
    ensures { result ≡ shell.is_plain byte }
{
    byte.is_ascii_alphanumeric() || b"%+,-./:=@_".contains(&byte)
}

// Whether each byte stands for itself.
fn are_plain(bytes: &[u8]) -> bool
    ensures { result ≡ list_all shell.is_plain bytes.now }
{
    for byte in bytes {
        if !is_plain(*byte) {
            return false;
        }
    }
    true
}

// Whether the name is a word as it stands.
fn is_word(name: &str) -> bool
    ensures { result ≡ shell.is_word name.now }
{
    !name.is_empty() && are_plain(name.as_bytes())
}

// Adds what stands between the quotes.
fn push_within_quotes(word: &mut String, name: &str) -> Result<(), AllocError>
    ensures { OnOk result (string_bytes word.new ≡ string_bytes word.old ++ flat_map shell.within_quotes name.now) }
{
    let mut left = name;
    while let Some((front, behind)) = left.split_once('\'') {
        word.push_str(front)?;
        word.push_str("'\\''")?;
        left = behind;
    }
    word.push_str(left)?;
    Ok(())
}

/// The name as one word of a shell: as it stands, or between single quotes. An `Err` says that memory ran out.
///
/// ```
/// let word = quoted(alloc, "my file.trace")?;      // "'my file.trace'"
/// ```
pub fn quoted(alloc: Global, name: &str) -> Result<String, AllocError>
    ensures { IfOk result (λ word. string_bytes word ≡ shell.quoted name.now) }
{
    let mut word = String::new(alloc);
    if is_word(name) {
        word.push_str(name)?;
        return Ok(word);
    }
    word.push_str("'")?;
    push_within_quotes(&mut word, name)?;
    word.push_str("'")?;
    Ok(word)
}
