ghost use Rattle.std.specs.Prelude.{◌≡◌, IfOk, OnOk};
ghost use Rattle.std.specs.Io.KnownBytes.{Appends};
ghost use Rattle.tlsf_command.specs.ClassLines.{class_line, no_class_line, IsSize};
ghost use Rattle.tlsf_lines.specs.Prefixes.{AppendsFront};

use arrayvec::ArrayString;
use std::fmt;
use std::fmt::Write as _;
use std::io::Write;
use tlsf_class::{class_of, low, search_of};
use tlsf_trace::{WriteError, write_out};

const NO_CLASS: &str = "tlsf: a size has 4 to 1048576 words, and up to 16777216 with --level 5\n";

// The line on a size of `words`, as `class 92 low 448 search 93 low 464`. It has at most 48 bytes.
fn line_of<const SLI: u32>(words: u32) -> Result<ArrayString<64>, fmt::Error>
    requires { IsSize SLI words }
    ensures { IfOk result (λ line. line.bytes ≡ class_line SLI words) }
{
    let class = class_of::<SLI>(words);
    let search = search_of::<SLI>(words);
    let mut line = ArrayString::new();
    writeln!(
        line,
        "class {} low {} search {} low {}",
        class.number(),
        low(class),
        search.number(),
        low(search)
    )?;
    Ok(line)
}

/// Writes the line on a size of `words`, 4 to 2^20 or at level 5 to 2^24, and flushes. It has the class of the size and its search
/// class, each with its least size in words. After an `Err` a prefix of the line was written.
///
/// ```
/// write_class_line::<4, _>(460, &mut writer)?;
/// // writer holds "class 92 low 448 search 93 low 464\n" more
/// ```
pub fn write_class_line<const SLI: u32, W: Write>(
    words: u32,
    writer: &mut W,
) -> Result<(), WriteError>
    requires { IsSize SLI words }
    ensures front { AppendsFront (W.contents writer.old) (W.contents writer.new)
        (class_line SLI words) }
    ensures ok { OnOk result (Appends (W.contents writer.old) (W.contents writer.new)
        (class_line SLI words)) }
{
    match line_of::<SLI>(words) {
        Ok(line) => write_out(writer, line.as_bytes()),
        // The line has at most 48 bytes and 64 have room, but no clause of the line says so.
        Err(_) => Err(WriteError),
    }
}

/// Writes the line that refuses a size that no class of its level has, and flushes. After an `Err` a
/// prefix of the line was written.
///
/// ```
/// let _ = write_no_class_line(&mut errors);
/// ```
pub fn write_no_class_line<E: Write>(errors: &mut E) -> Result<(), WriteError>
    ensures { AppendsFront (E.contents errors.old) (E.contents errors.new) no_class_line }
{
    write_out(errors, NO_CLASS.as_bytes())
}
