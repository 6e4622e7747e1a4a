ghost use Rattle.std.specs.Prelude.{◌≡◌, ℕ, ◌+◌, ◌==◌, ◌<◌, ◌≤◌, List, length, IfErr, IfOk, IsErrOf, OnOk, IfSome, count_by};
ghost use Rattle.std.specs.Io.KnownBytes.{Consumes};
ghost use Rattle.tlsf_lines.specs.Limits.{IsReadWhole, IsTooLong, Passes};
ghost use Rattle.tlsf_lines.specs.OpenLines.{open_count};
ghost use Rattle.tlsf_lines.specs.ReadCounts.{IsOver};
ghost use Rattle.tlsf_lines.specs.TraceFaults.{fault_of_read, too_long_fault};
ghost use Rattle.tlsf_lines.specs.declared.last_read.LastRead.TheVariants.{Ended, Failed};
ghost use Rattle.tlsf_lines.specs.declared.limit.Limit as limits;

use crate::limit::Limit;
use crate::read_count::ReadCount;
use crate::read_error::ReadError;
use std::alloc::Global;
use std::io::Read;

/// How many bytes an input may have.
pub const MOST_BYTES: usize = 1_048_576;

/// How many lines an input may have. The bytes after the last line feed count as a line.
pub const MOST_LINES: usize = 32_768;

/// How many bytes a sum of 8 bits counts at a time: the most that are whole vectors of sixteen.
const BLOCK: usize = 240;

// Counts the line feeds of a block. Sums of 8 bits let the compiler test sixteen bytes at once.
fn count_in_block(block: &[u8]) -> usize
    requires { length block.now ≤ 255 }
    ensures { result ≡ count_by (λ b. b == 10) block.now }
{
    let mut count = 0u8;
    for byte in block {
        count += u8::from(*byte == b'\n');
    }
    usize::from(count)
}

// Counts line feeds, block by block.
fn count_line_feeds(bytes: &[u8]) -> usize
    requires { length bytes.now ≤ 4096 }
    ensures { result ≡ count_by (λ b. b == 10) bytes.now }
{
    let mut count = 0;
    let mut rest = bytes;
    while !rest.is_empty() {
        let (block, behind) = rest.split_at(rest.len().min(BLOCK));
        count += count_in_block(block);
        rest = behind;
    }
    count
}

// How many lines are open behind the last line feed: one where the last byte is no line feed.
fn count_open_lines(bytes: &[u8]) -> usize
    requires { 0 < length bytes.now }
    ensures { result ≡ open_count bytes.now }
{
    if bytes[bytes.len() - 1] == b'\n' {
        0
    } else {
        1
    }
}

/// Reads all that the reader has left, in reads of up to 4,096 bytes: at most 2^20 bytes and 32,768 lines. `count` begins
/// anew, and shows afterwards how many reads there were and how the last one went.
///
/// After an `Err` the reader may have given any number of its bytes.
///
/// ```
/// // reader gives "tlsf 1 1 64 1\n", and then its end
/// let mut count = ReadCount::new();
/// let text = read_counted(alloc, &mut reader, &mut count)?;
/// // text has these 14 bytes, and count.left() is 65_534
/// ```
///
/// # Errors
///
/// [`ReadError::TooLong`] with the limit, exactly where the text that was read has more than 2^20 bytes or 32,768 lines, or 65,536
/// reads all gave bytes. Next comes [`ReadError::Read`], only where a read answered an error. The last is [`ReadError::NoMemory`].
pub fn read_counted<R: Read>(
    alloc: Global,
    reader: &mut R,
    count: &mut ReadCount,
) -> Result<Vec<u8>, ReadError>
    ensures read { IfOk result (λ text. IsReadWhole (R.remaining reader.old) (R.remaining reader.new) text.items) }

    // An input is accepted only where a read showed its end.
    ensures ended { OnOk result (count.new.last ≡ Ended) }
    ensures failed { IsErrOf result ReadError.Read → count.new.last ≡ Failed }

    // It is refused by a limit only where what was given up to then is over that. All reads up to then gave a byte.
    ensures too_long { (limit : limits.Limit) → IsErrOf result (ReadError.TooLong limit) → (given : List ℕ)
        × Consumes (R.remaining reader.old) (R.remaining reader.new) given
        × (65536 ≤ count.new.left + length given) × IsOver limit count.new given }
{
    *count = ReadCount::new();
    let mut text: Vec<u8> = Vec::new(alloc);
    let mut line_feeds = 0;
    let mut buffer = [0u8; 4096];
    loop {
        let taken = count.read(reader, &mut buffer)?;
        if taken == 0 {
            return Ok(text);
        }
        let piece = &buffer[..taken];
        if MOST_BYTES - text.len() < piece.len() {
            return Err(ReadError::TooLong(Limit::Bytes));
        }
        line_feeds += count_line_feeds(piece);
        if line_feeds + count_open_lines(piece) > MOST_LINES {
            return Err(ReadError::TooLong(Limit::Lines));
        }
        if text.extend_from_slice(piece).is_err() {
            return Err(ReadError::NoMemory);
        }
    }
}

/// Reads all that the reader has left, in reads of up to 4,096 bytes: at most 2^20 bytes and 32,768 lines.
///
/// After an `Err` the reader may have given any number of its bytes.
///
/// ```
/// // reader gives "tlsf 1 1 64 1\n", and then its end
/// let text = read_all(alloc, &mut reader)?;
/// // text has these 14 bytes
/// ```
///
/// # Errors
///
/// [`ReadError`]: memory, a limit that the text passes, or a read that answered an error.
pub fn read_all<R: Read>(alloc: Global, reader: &mut R) -> Result<Vec<u8>, ReadError>
    ensures read { IfOk result (λ text. IsReadWhole (R.remaining reader.old) (R.remaining reader.new) text.items) }

    // An input is refused for its length only where it has that many bytes or lines.
    ensures too_long { IfErr result (λ error. fault_of_read error ≡ too_long_fault
        → IfSome (R.remaining reader.old) IsTooLong) }

    // The limit that is answered is one that it passes.
    ensures passed { (limit : limits.Limit) → IsErrOf result (ReadError.TooLong limit)
        → IfSome (R.remaining reader.old) (Passes limit) }
{
    read_counted(alloc, reader, &mut ReadCount::new())
}
