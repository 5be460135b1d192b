//! The sentence of each code of a report on a log.

use babel_line_details::{ReportCode, SeenCodes};
use std::cell::Cell;
use std::io::{self, Write};

/// A report that is written on, and the sentence of each code on `err`, where it is first.
///
/// Each line of the report comes in a call of its own. Only a code has a capital letter and then
/// digits alone.
#[derive(Drop)]
pub(crate) struct ExplainedReport<'a, W, E> {
    out: &'a mut W,
    err: &'a mut E,
    /// The name of the log.
    name: &'a str,
    /// The number of the log's line of which the report is.
    line: &'a Cell<u64>,
    seen: SeenCodes,
}

impl<'a, W: Write, E: Write> ExplainedReport<'a, W, E> {
    pub(crate) fn new(
        out: &'a mut W,
        err: &'a mut E,
        name: &'a str,
        line: &'a Cell<u64>,
    ) -> ExplainedReport<'a, W, E> {
        ExplainedReport {
            out,
            err,
            name,
            line,
            seen: SeenCodes::new(),
        }
    }

    /// Writes the sentences of the text's codes. The report is flushed before, so that its line
    /// comes first.
    fn explain(&mut self, text: &[u8]) -> io::Result<()> {
        for word in text.split(|octet| matches!(*octet, b' ' | b'\n')) {
            let Some(code) = ReportCode::from_name(word) else {
                continue;
            };
            if self.seen.add(code) {
                self.out.flush()?;
                // If writing the sentence fails, the report is whole all the same.
                let _ = writeln!(self.err, "{}:{}: {code}", self.name, self.line.get());
            }
        }
        Ok(())
    }
}

impl<W: Write, E: Write> Write for ExplainedReport<'_, W, E> {
    fn write(&mut self, buf: &[u8]) -> io::Result<usize> {
        let count = self.out.write(buf)?;
        self.explain(buf.get(..count).unwrap_or(buf))?;
        Ok(count)
    }

    fn flush(&mut self) -> io::Result<()> {
        self.out.flush()
    }
}
