//! Which lines of a report are written.

use babel_value::{Line, Prefix};
use std::io::{self, Write};

/// The words by which lines can be selected: what a line is about, the names of messages, and
/// codes.
pub const WORDS: [&str; 49] = [
    "select",
    "out",
    "table",
    "refused",
    "ignored",
    "state",
    "ack-request",
    "ack",
    "hello",
    "ihu",
    "update",
    "retract",
    "retract-all",
    "route-request",
    "dump-request",
    "seqno-request",
    "V1",
    "V2",
    "V3",
    "V4",
    "V5",
    "V6",
    "V7",
    "V8",
    "V9",
    "I1",
    "I2",
    "I3",
    "I4",
    "I5",
    "I6",
    "I7",
    "I8",
    "I9",
    "I10",
    "I11",
    "I12",
    "I13",
    "S1",
    "S2",
    "S3",
    "E1",
    "E2",
    "P1",
    "P2",
    "P3",
    "P4",
    "P5",
    "P6",
];

/// The lines of a report on a log that are written: those that name the prefix, and have one of the
/// words. Without a prefix each line names it, and without words each line has one.
#[derive(Drop)]
pub struct LineFilter<'a> {
    /// The text of the prefix; empty if there is none.
    prefix: Line,
    words: &'a [&'a str],
}

impl<'a> LineFilter<'a> {
    /// The filter of a prefix, and of words that a line may have.
    pub fn new(prefix: Option<Prefix>, words: &'a [&'a str]) -> LineFilter<'a> {
        let mut text = Line::new();
        if let Some(prefix) = prefix {
            text.push_prefix(&prefix);
        }
        LineFilter {
            prefix: text,
            words,
        }
    }

    /// Whether each line is written.
    pub fn keeps_all(&self) -> bool {
        self.prefix.octets().is_empty() && self.words.is_empty()
    }

    /// Whether the line is written.
    pub fn keeps(&self, line: &[u8]) -> bool {
        self.names_prefix(line) && self.has_word(line)
    }

    fn names_prefix(&self, line: &[u8]) -> bool {
        let prefix = self.prefix.octets();
        prefix.is_empty() || has(line, prefix)
    }

    fn has_word(&self, line: &[u8]) -> bool {
        if self.words.is_empty() {
            return true;
        }
        for word in self.words {
            if has(line, word.as_bytes()) {
                return true;
            }
        }
        false
    }
}

/// Whether one of the line's words is this one.
fn has(line: &[u8], word: &[u8]) -> bool {
    for one in line.split(|octet| matches!(*octet, b' ' | b'\n')) {
        if one == word {
            return true;
        }
    }
    false
}

/// A report of which some lines are written. Each line comes in a call of its own.
#[derive(Drop)]
pub struct FilteredReport<'a, 'b, W> {
    out: &'a mut W,
    filter: &'b LineFilter<'b>,
}

impl<'a, 'b, W: Write> FilteredReport<'a, 'b, W> {
    /// The report whose lines are written to `out` if the filter keeps them.
    pub fn new(out: &'a mut W, filter: &'b LineFilter<'b>) -> FilteredReport<'a, 'b, W> {
        FilteredReport { out, filter }
    }
}

impl<W: Write> Write for FilteredReport<'_, '_, W> {
    fn write(&mut self, buf: &[u8]) -> io::Result<usize> {
        if self.filter.keeps(buf) {
            self.out.write_all(buf)?;
        }
        Ok(buf.len())
    }

    fn flush(&mut self) -> io::Result<()> {
        self.out.flush()
    }
}
