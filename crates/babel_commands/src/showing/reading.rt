//! The lines of the input, and their fields.

use crate::showing::one::read_source;
use babel_text::{LineFault, MAX_LINE_LEN};
use babel_value::Addr;
use memchr::memchr;
use std::io::{BufRead, ErrorKind};

/// How many octets a command reads at a time.
pub const READ_LEN: usize = 65_536;

/// Reads a line without its line feed, and returns whether there was one. The end of the input ends
/// the last line.
pub fn read_line<R: BufRead>(input: &mut R, line: &mut Vec<u8>) -> Result<bool, LineFault> {
    if !read_front(input, line)? {
        return Ok(false);
    }
    if line.last() == Some(&b'\n') {
        let _ = line.pop();
    }
    if line.len() > MAX_LINE_LEN {
        return Err(LineFault::TooLong);
    }
    Ok(true)
}

/// Skips the rest of a line of which the front was read, and its line feed.
pub(crate) fn skip_line<R: BufRead>(input: &mut R, line: &mut Vec<u8>) -> Result<(), LineFault> {
    for _ in 0..u64::MAX {
        if !read_front(input, line)? || line.last() == Some(&b'\n') {
            break;
        }
    }
    Ok(())
}

/// Reads a line with its line feed, or so much of it that it is too long. Returns whether there was
/// anything.
fn read_front<R: BufRead>(input: &mut R, line: &mut Vec<u8>) -> Result<bool, LineFault> {
    line.clear();
    for _ in 0..u64::MAX {
        if let Part::Last = read_part(input, line)? {
            break;
        }
    }
    Ok(!line.is_empty())
}

/// What was read of a line.
#[derive(Clone, Copy)]
enum Part {
    /// More of it may follow.
    More,
    /// All of it, or so much that it is too long.
    Last,
}

/// Appends what the input has in its buffer of the line. The end is searched by words, not octet by
/// octet.
///
/// A call that the system interrupts is made again.
fn read_part<R: BufRead>(input: &mut R, line: &mut Vec<u8>) -> Result<Part, LineFault> {
    let buffer = match input.fill_buf() {
        Ok(buffer) => buffer,
        Err(error) if error.kind() == ErrorKind::Interrupted => return Ok(Part::More),
        Err(error) => return Err(LineFault::of_reading(error)),
    };
    let room = (MAX_LINE_LEN + 1).saturating_sub(line.len());
    let shown = &buffer[..buffer.len().min(room)];
    let (len, part) = match memchr(b'\n', shown) {
        Some(feed) => (feed + 1, Part::Last),
        None if shown.is_empty() => (0, Part::Last),
        None => (shown.len(), Part::More),
    };
    if line.extend_from_slice(&shown[..len]).is_err() {
        return Err(LineFault::Memory);
    }
    input.consume(len);
    Ok(part)
}

/// Whether the line is blank or begins with `#`.
pub(crate) fn is_skipped(line: &[u8]) -> bool {
    if line.first() == Some(&b'#') {
        return true;
    }
    for octet in line {
        if !matches!(*octet, b' ' | b'\t') {
            return false;
        }
    }
    true
}

/// The source and the hexadecimal text of a line, which the first blank separates. A line without a
/// blank has the source that is given.
pub(crate) fn parse_line(line: &[u8], source: Addr) -> Result<(Addr, &[u8]), LineFault> {
    let Some(blank) = memchr(b' ', line) else {
        return Ok((source, line));
    };
    let Ok(text) = str::from_utf8(&line[..blank]) else {
        return Err(LineFault::Address);
    };
    Ok((read_source(text)?, &line[blank + 1..]))
}
