ghost use Rattle.std.specs.Prelude.{◌≡◌};
ghost use Rattle.std.specs.Io.{ReadsAtMost};
ghost use Rattle.std.specs.Io.KnownBytes.{ReadConsumes};
ghost use Rattle.tlsf_lines.specs.ReadCounts.{no_reads, IsNextRead};

use crate::last_read::LastRead;
use crate::limit::Limit;
use crate::read_error::ReadError;
use std::io::Read;
use std::marker::Model;

/// How many reads an input is given to end, the one that shows its end among them.
pub const MOST_READS: u32 = 65_536;

/// How many reads an input is still given, and what the last one showed. Nothing but a read changes it.
///
/// ```
/// let mut count = ReadCount::new();
/// let bytes = count.read(&mut reader, &mut buffer)?;
/// // count.left() is 65_535, and count.last() is LastRead::Open where bytes came
/// ```
#[derive(Drop)]
pub struct ReadCount {
    left: u32,
    last: LastRead,
}

impl Model for ReadCount {
    ghost use Rattle.tlsf_lines.specs.ReadCounts.{ReadsSoFar};

    ghost Value = { ReadsSoFar };

    ghost view = { λ c. record { left = c.left; last = c.last } };
}

impl ReadCount {
    /// No read was made yet: 65,536 are left.
    ///
    /// ```
    /// let mut count = ReadCount::new();
    /// ```
    pub fn new() -> ReadCount
        ensures { result ≡ no_reads }
    {
        ReadCount {
            left: MOST_READS,
            last: LastRead::Open,
        }
    }

    /// How many reads are left, 0 to 65,536.
    ///
    /// ```
    /// let reads = MOST_READS - count.left();     // so many were made
    /// ```
    pub fn left(&self) -> u32
        ensures { result ≡ self.now.left }
    {
        self.left
    }

    /// The result of the last read.
    ///
    /// ```
    /// let is_whole = count.last() == LastRead::Ended;
    /// ```
    pub fn last(&self) -> LastRead
        ensures { result ≡ self.now.last }
    {
        self.last
    }

    /// Reads once, up to 4,096 bytes into `buffer`, and gives how many came: 0 at the end of the input. This is the one read there is.
    ///
    /// ```
    /// let count = reads.read(&mut reader, &mut buffer)?;     // buffer[..count] has what came
    /// ```
    ///
    /// # Errors
    ///
    /// [`ReadError::TooLong`] by [`Limit::Reads`], exactly where no read is left, and then nothing is read;
    /// [`ReadError::Read`] where the read answered an error.
    pub fn read<R: Read>(
        &mut self,
        reader: &mut R,
        buffer: &mut [u8; 4096],
    ) -> Result<usize, ReadError>
        ensures next { IsNextRead result self.old self.new }
        ensures bound { ReadsAtMost result buffer.new }
        ensures bytes { ReadConsumes (R.remaining reader.old) (R.remaining reader.new) result buffer.new }
    {
        if self.left == 0 {
            return Err(ReadError::TooLong(Limit::Reads));
        }
        self.left -= 1;
        match reader.read(buffer) {
            Ok(0) => {
                self.last = LastRead::Ended;
                Ok(0)
            }
            Ok(count) => {
                self.last = LastRead::Open;
                Ok(count)
            }
            Err(_) => {
                self.last = LastRead::Failed;
                Err(ReadError::Read)
            }
        }
    }
}
