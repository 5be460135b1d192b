//! The lines of a log, read one after another.

ghost use Rattle.std.specs.Prelude.{◌≡◌, ◌⊎◌, ◌<◌, ◌≤◌, length, vec_capacity, Err, IfOk, IfErr, IfSome};
ghost use Rattle.babel_text.specs.Lines.{max_line_len};
ghost use Rattle.babel_replay.specs.Reading.{lines_of, first_of, IsTooLong, ReadsLine, ReadsPart, ShowsTooMuch};

use babel_text::{LineFault, MAX_LINE_LEN};
use memchr::memchr;
use std::io::{BufRead, ErrorKind};

/// Reads a line without its line feed, and returns whether there was one. The end of the log ends
/// its last line.
///
/// A call that the system interrupts is made again. At most the longest line is kept, so the memory
/// of `line` is bounded.
pub(crate) fn read_line<R: BufRead>(log: &mut R, line: &mut Vec<u8>) -> Result<bool, LineFault>
    ensures line { IfOk result (λ more. ReadsLine (R.remaining log.old) (R.remaining log.new) more line.new.items) }
    ensures within { IfOk result (λ _. length line.new.items ≤ max_line_len) }
    ensures too_long { result ≡ Err LineFault.TooLong → IfSome (R.remaining log.old) (λ octets. IsTooLong (first_of (lines_of octets))) }
    ensures memory { result ≡ Err LineFault.Memory → vec_capacity line.old < max_line_len }
    ensures room { vec_capacity line.old ≤ vec_capacity line.new }
    ensures fault { IfErr result (λ f. (f ≡ LineFault.TooLong) ⊎ ((f ≡ LineFault.Read) ⊎ (f ≡ LineFault.Memory))) }
{
    line.clear();
    for _ in 0..u64::MAX {
        match read_part(log, line)? {
            Part::Last => return Ok(true),
            Part::AtEnd => return Ok(!line.is_empty()),
            Part::More => {}
        }
    }
    Err(LineFault::Read)
}

/// What was read of a line.
enum Part {
    /// More of it may follow.
    More,
    /// Its last octets, and its line feed.
    Last,
    /// Nothing: the log has ended.
    AtEnd,
}

/// Appends what the reader has in its buffer of the line, and consumes it and its line feed.
fn read_part<R: BufRead>(log: &mut R, line: &mut Vec<u8>) -> Result<Part, LineFault>
    requires within { length line.old.items ≤ max_line_len }
    ensures within { length line.new.items ≤ max_line_len }
    ensures part { IfOk result (λ part. ReadsPart part (R.remaining log.old) (R.remaining log.new) line.old.items line.new.items) }
    ensures too_long { result ≡ Err LineFault.TooLong → ShowsTooMuch (R.remaining log.old) line.old.items }
    ensures memory { result ≡ Err LineFault.Memory → vec_capacity line.old < max_line_len }
    ensures room { vec_capacity line.old ≤ vec_capacity line.new }
    ensures fault { IfErr result (λ f. (f ≡ LineFault.TooLong) ⊎ ((f ≡ LineFault.Read) ⊎ (f ≡ LineFault.Memory))) }
{
    let shown = match log.fill_buf() {
        Ok(shown) => shown,
        Err(error) => {
            return match error.kind() {
                ErrorKind::Interrupted => Ok(Part::More),
                _ => Err(LineFault::Read),
            };
        }
    };
    if shown.is_empty() {
        return Ok(Part::AtEnd);
    }
    let found = memchr(b'\n', shown);
    let count = found.unwrap_or(shown.len());
    if count > MAX_LINE_LEN - line.len() {
        return Err(LineFault::TooLong);
    }
    if line.extend_from_slice(&shown[..count]).is_err() {
        return Err(LineFault::Memory);
    }
    if found.is_some() {
        log.consume(count + 1);
        return Ok(Part::Last);
    }
    log.consume(count);
    Ok(Part::More)
}
