ghost use Rattle.std.specs.Prelude.{OnOk};
ghost use Rattle.std.specs.Io.KnownBytes.{Appends};
ghost use Rattle.tlsf_lines.specs.Prefixes.{AppendsFront};

use std::io::Write;

/// A write or the flush answered an error, or a write took no byte.
///
/// A call that was interrupted is not tried again. [`TraceFault::WRITE`](crate::TraceFault::WRITE) is its fault.
#[derive(Clone, Copy, Debug, PartialEq, Eq)]
pub struct WriteError;

/// Writes the text, and flushes. After an `Err` a prefix of the text was written.
///
/// ```
/// write_out(&mut writer, b"0 f 1 freed\n")?;
/// // writer holds 12 bytes more, and was flushed
/// ```
pub fn write_out<W: Write>(writer: &mut W, text: &[u8]) -> Result<(), WriteError>
    ensures front { AppendsFront (W.contents writer.old) (W.contents writer.new) text.now }
    ensures ok { OnOk result (Appends (W.contents writer.old) (W.contents writer.new) text.now) }
{
    let mut done = 0;
    while done < text.len() {
        match writer.write(&text[done..]) {
            Err(_) | Ok(0) => return Err(WriteError),
            Ok(count) => done += count,
        }
    }
    match writer.flush() {
        Ok(()) => Ok(()),
        Err(_) => Err(WriteError),
    }
}
