use arrayvec::ArrayString;
use std::fmt::Write as _;
use std::{fmt, io};
use tlsf_trace::{TraceFault, WriteError, write_out};

/// A fault as the program shows it, as `line 2: bad line (12)`.
///
/// ```
/// let report = FaultReport { fault: TraceFault { no: 12, line: 2 } };
/// // report.status() is 1, and report.line()? is "tlsf: line 2: bad line (12)\n"
/// ```
#[derive(Clone, Copy, Debug, PartialEq, Eq)]
pub struct FaultReport {
    /// The fault that is shown.
    pub fault: TraceFault,
}

impl FaultReport {
    ghost use Rattle.std.specs.Prelude.{◌≡◌, IfOk, OnOk};
    ghost use Rattle.std.specs.Io.KnownBytes.{Appends};
    ghost use Rattle.tlsf_command.specs.FaultLines.{check_tip, fault_line, reason_of, status_of_fault};
    ghost use Rattle.tlsf_lines.specs.Prefixes.{AppendsFront};

    /// The exit status of a run that ends by this fault: 3 for want of memory, else 1.
    pub fn status(&self) -> u8
        ensures { result ≡ status_of_fault self.now.fault }
    {
        if self.fault.no == 6 { 3 } else { 1 }
    }

    /// The line that reports the fault, as `tlsf: line 2: bad line (12)`. It is made in place,
    /// since memory may be what lacks.
    pub fn line(self) -> Result<ArrayString<64>, fmt::Error>
        ensures { IfOk result (λ line. line.bytes ≡ fault_line self.fault) }
    {
        let mut line = ArrayString::new();
        writeln!(line, "tlsf: {self}")?;
        Ok(line)
    }

    /// Writes the line that reports the fault, and flushes. Where the stream takes all bytes and the flush succeeds, it
    /// answers `Ok` and the line was written whole.
    ///
    /// ```
    /// report.write_to(&mut errors)?;      // errors holds "tlsf: line 2: bad line (12)\n" besides
    /// ```
    ///
    /// # Errors
    ///
    /// [`WriteError`] where a write or the flush answered an error, or a write took no byte. A prefix of the line was written.
    pub fn write_to<W: io::Write>(self, stream: &mut W) -> Result<(), WriteError>
        ensures front { AppendsFront (W.contents stream.old) (W.contents stream.new) (fault_line self.fault) }
        ensures whole { OnOk result (Appends (W.contents stream.old) (W.contents stream.new) (fault_line self.fault)) }
    {
        match self.line() {
            Ok(line) => write_out(stream, line.as_bytes()),
            // No fault's line is longer than the 64 bytes it has room in, but no clause of the line says so.
            Err(_) => Err(WriteError),
        }
    }

    /// The line for who reads that one at a terminal: where the trace itself has the fault, `tip: 'tlsf check < TRACE' says more`. Nothing
    /// where a read, a write or memory has it.
    ///
    /// ```
    /// let tip = report.check_tip();       // "tip: 'tlsf check < TRACE' says more\n"
    /// ```
    pub fn check_tip(&self) -> &'static str
        ensures { result.now ≡ check_tip self.now.fault }
    {
        if self.fault.no >= 11 && self.fault.no <= 15 {
            "tip: 'tlsf check < TRACE' says more\n"
        } else {
            ""
        }
    }

    // The meaning of the fault's number.
    fn reason(&self) -> &'static str
        ensures { result.now ≡ reason_of self.now.fault.no }
    {
        match self.fault.no {
            6 => "out of memory",
            11 => "bad header",
            12 => "bad line",
            13 => "bad number",
            14 => "label out of order",
            15 => "trace too long",
            16 => "read failed",
            17 => "write failed",
            // A replay answers none of another number, but the type allows one.
            _ => "unknown fault",
        }
    }
}

impl fmt::Display for FaultReport {
    ghost use Rattle.std.specs.Prelude.{Some};
    ghost use Rattle.tlsf_command.specs.FaultLines.{fault_text};

    ghost output = { λ report. Some (fault_text report.fault) };

    fn fmt<W: fmt::Write>(&self, f: &mut fmt::Formatter<W>) -> fmt::Result {
        let no = self.fault.no;
        let line = self.fault.line;
        let reason = self.reason();
        if line > 0 {
            write!(f, "line {line}: {reason} ({no})")
        } else {
            write!(f, "{reason} ({no})")
        }
    }
}
