//! A log up to a moment.

use crate::showing::READ_LEN;
use babel_text::parse_u64;
use memchr::memchr;
use std::alloc::Global;
use std::io::{self, BufRead, BufReader, Read};

/// How many octets of a line are read at a time.
const PART_LEN: u64 = 65_536;

/// A log, whole or up to a moment.
#[derive(Drop)]
pub enum Log<L: Read + Drop> {
    /// The whole log.
    Whole(L),
    /// The log up to a moment.
    Until(LogUntil<L>),
}

impl<L: Read + Drop> Log<L> {
    /// The log up to the moment, if there is one.
    pub fn new(alloc: Global, log: L, until: Option<u64>) -> io::Result<Log<L>> {
        match until {
            Some(until) => Ok(Log::Until(LogUntil::new(alloc, log, until)?)),
            None => Ok(Log::Whole(log)),
        }
    }
}

impl<L: Read + Drop> Read for Log<L> {
    fn read(&mut self, buf: &mut [u8]) -> io::Result<usize> {
        match self {
            Log::Whole(log) => log.read(buf),
            Log::Until(log) => log.read(buf),
        }
    }
}

/// A log that ends before the first line whose time is later than a moment, in centiseconds. A line
/// that can't be read has no time.
#[derive(Drop)]
pub struct LogUntil<L: Read + Drop> {
    log: BufReader<L>,
    until: u64,
    /// The part of the log that is read, which is a line or a part of one.
    part: Vec<u8>,
    /// How many of its octets were taken.
    taken: usize,
    state: State,
}

/// What follows the part.
#[derive(Clone, Copy, PartialEq, Eq)]
enum State {
    /// The next line.
    Line,
    /// The rest of the line.
    Rest,
    /// Nothing.
    End,
}

impl<L: Read + Drop> LogUntil<L> {
    fn new(alloc: Global, log: L, until: u64) -> io::Result<LogUntil<L>> {
        Ok(LogUntil {
            log: BufReader::with_capacity(alloc, READ_LEN, log)?,
            until,
            part: Vec::new(alloc),
            taken: 0,
            state: State::Line,
        })
    }

    /// Reads the next part, which is empty at the end.
    fn read_part(&mut self) -> io::Result<()> {
        self.part.clear();
        self.taken = 0;
        if self.state == State::End {
            return Ok(());
        }
        read_front(&mut self.log, &mut self.part)?;
        if self.state == State::Line && is_later(self.part.as_slice(), self.until) {
            self.part.clear();
            self.state = State::End;
            return Ok(());
        }
        self.state = match self.part.last() {
            Some(b'\n') => State::Line,
            _ => State::Rest,
        };
        Ok(())
    }
}

/// Reads the front of a line with its line feed, which is at most so long.
fn read_front<R: BufRead>(log: &mut R, part: &mut Vec<u8>) -> io::Result<()> {
    let mut front = Read::take(&mut *log, PART_LEN);
    front.read_until(b'\n', part)?;
    Ok(())
}

/// Whether the line's time is later.
fn is_later(line: &[u8], until: u64) -> bool {
    let Some(blank) = memchr(b' ', line) else {
        return false;
    };
    match str::from_utf8(&line[..blank]) {
        Ok(text) => parse_u64(text).is_some_and(|time| time > until),
        Err(_) => false,
    }
}

impl<L: Read + Drop> Read for LogUntil<L> {
    fn read(&mut self, buf: &mut [u8]) -> io::Result<usize> {
        if self.taken >= self.part.len() {
            self.read_part()?;
        }
        let mut rest = self.part.get(self.taken..).unwrap_or(&[]);
        let count = rest.read(buf)?;
        self.taken = self.taken.saturating_add(count);
        Ok(count)
    }
}
