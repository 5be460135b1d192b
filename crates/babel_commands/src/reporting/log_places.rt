//! The line of a log that is being read.

use memchr::memchr_iter;
use std::alloc::Global;
use std::cell::Cell;
use std::io::{self, BufRead, BufReader, Read};

/// A log that keeps the number of the line to which the last octet belongs that was taken of it.
#[derive(Drop)]
pub(crate) struct CountingLog<'a, L: Read + Drop> {
    log: BufReader<L>,
    /// How many line feeds were taken.
    line_feeds: u64,
    /// The number of the line, from 1 on.
    line: &'a Cell<u64>,
}

impl<'a, L: Read + Drop> CountingLog<'a, L> {
    pub(crate) fn new(log: BufReader<L>, line: &'a Cell<u64>) -> CountingLog<'a, L> {
        CountingLog {
            log,
            line_feeds: 0,
            line,
        }
    }

    /// Counts the octets that are taken.
    fn count(&mut self, amount: usize) {
        let Some(taken) = self.log.buffer().get(..amount) else {
            return;
        };
        let Some(last) = taken.last() else {
            return;
        };
        let is_inside = *last != b'\n';
        let line_feeds = memchr_iter(b'\n', taken).count();
        self.line_feeds = self.line_feeds.saturating_add(line_feeds as u64);
        self.line
            .set(self.line_feeds.saturating_add(u64::from(is_inside)));
    }
}

impl<L: Read + Drop> Read for CountingLog<'_, L> {
    fn read(&mut self, buf: &mut [u8]) -> io::Result<usize> {
        let mut front = self.fill_buf()?;
        let count = front.read(buf)?;
        self.consume(count);
        Ok(count)
    }
}

impl<L: Read + Drop> BufRead for CountingLog<'_, L> {
    fn fill_buf(&mut self) -> io::Result<&[u8]> {
        self.log.fill_buf()
    }

    fn consume(&mut self, amount: usize) {
        self.count(amount);
        self.log.consume(amount);
    }
}
