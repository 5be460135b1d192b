//! `babel show --stdin`: what many datagrams mean, one a line.

use crate::showing::explaining::{Origin, explain_places, explain_refusal};
use crate::showing::one::{PAGE_LEN, read_source, write_places, write_refusal};
use crate::showing::reading::{is_skipped, parse_line, read_line, skip_line};
use crate::showing::{Details, LineCode, READ_LEN, Status, refuse, report};
use babel_line_details::{LineDetail, LineProblem, SeenCodes, explain_shown_line};
use babel_message::{Placed, Refusal};
use babel_packet::decode_into;
use babel_text::{LineFault, MAX_LINE_LEN, parse_octets};
use babel_value::Addr;
use memchr::memchr;
use std::alloc::Global;
use std::io::{BufRead, BufReader, Read, Write};

/// What becomes of a line that can't be read.
#[derive(Clone, Copy)]
pub enum BadLines {
    /// The command ends with its code.
    End,
    /// Its code is written, and the command goes on.
    GoOn,
}

/// How `show_lines` reads and writes.
#[derive(Clone, Copy)]
pub struct LineOptions<'a> {
    /// The source address of a line that has none.
    pub source: &'a str,
    /// Whether `# <line> <source>` is written before each datagram.
    pub header: bool,
    /// What becomes of a line that can't be read.
    pub bad_lines: BadLines,
    /// Whether a sentence follows the code of a line that can't be read, and the first of each code
    /// of the lines that are shown.
    pub details: Details,
}

/// Reads lines `<source> <hex>` or `<hex>`, and writes the lines of each datagram, with an empty
/// line between two datagrams. Blank lines and lines that begin with `#` are skipped. A refused
/// datagram is shown as such, and the reading goes on.
///
/// The number and the code of a line of another form are written to `err`, and it returns
/// `Refused`, at once or, with `BadLines::GoOn`, at the end. Line numbers begin at 1 and count each
/// line.
///
/// What is shown is flushed before each read that may wait. The memory doesn't grow with the input.
pub fn show_lines<R: Read + Drop, W: Write, E: Write>(
    alloc: Global,
    options: LineOptions<'_>,
    input: R,
    out: &mut W,
    err: &mut E,
) -> Status {
    match Shower::new(alloc, options) {
        Ok(mut shower) => shower.show(input, out, err),
        Err(fault) => {
            let status = report(fault, err);
            if options.details == Details::Shown && fault == LineFault::Address {
                let _ = writeln!(err, "--source: {}", LineProblem::Address(options.source));
            }
            status
        }
    }
}

/// What comes before each datagram.
#[derive(Clone, Copy)]
struct Heads {
    /// Whether `# <line> <source>` is written before each datagram.
    header: bool,
    /// Whether no datagram was shown yet.
    is_first: bool,
}

impl Heads {
    /// Writes what comes before a datagram.
    fn write<W: Write>(&mut self, number: u64, source: Addr, out: &mut W) -> Result<(), LineFault> {
        if !self.is_first {
            out.write_all(b"\n").map_err(LineFault::of_writing)?;
        }
        self.is_first = false;
        if self.header {
            writeln!(out, "# {number} {source}").map_err(LineFault::of_writing)?;
        }
        Ok(())
    }
}

/// Shows the datagrams of lines, one after another.
#[derive(Drop)]
struct Shower {
    alloc: Global,
    bad_lines: BadLines,
    /// Whether a line couldn't be read.
    has_bad_line: bool,
    /// A line that didn't come at once, or that can't be read.
    line: Vec<u8>,
    lines: LineShower,
}

/// Shows the datagram of a line.
#[derive(Drop)]
struct LineShower {
    /// The source address of a line that has none.
    source: Addr,
    heads: Heads,
    details: Details,
    /// The codes that were explained.
    seen: SeenCodes,
    /// The number of the line, and 0 before the first.
    number: u64,
    /// Room for the octets of its datagram.
    octets: Vec<u8>,
    /// What its datagram means.
    placed: Vec<Placed>,
    /// Room for lines of what is shown.
    page: [u8; PAGE_LEN],
}

impl Shower {
    fn new(alloc: Global, options: LineOptions<'_>) -> Result<Shower, LineFault> {
        let lines = LineShower::new(alloc, options)?;
        let line = Vec::with_capacity(alloc, MAX_LINE_LEN + 1)?;
        Ok(Shower {
            alloc,
            bad_lines: options.bad_lines,
            has_bad_line: false,
            line,
            lines,
        })
    }

    /// Shows the datagrams of all lines.
    fn show<R: Read + Drop, W: Write, E: Write>(
        &mut self,
        input: R,
        out: &mut W,
        err: &mut E,
    ) -> Status {
        match self.show_all(input, out, err) {
            Ok(()) if self.has_bad_line => Status::Refused,
            Ok(()) => Status::Done,
            Err(fault) => {
                // What was shown before the fault is flushed; the fault is reported even if that
                // fails.
                let _ = out.flush();
                self.report(fault, err);
                Status::Refused
            }
        }
    }

    fn show_all<R: Read + Drop, W: Write, E: Write>(
        &mut self,
        input: R,
        out: &mut W,
        err: &mut E,
    ) -> Result<(), LineFault> {
        let mut input = BufReader::with_capacity(self.alloc, READ_LEN, input).map_err(
            LineFault::of_reading,
        )?;
        for turn in 1..u64::MAX {
            self.lines.number = turn;
            if !self.show_next(&mut input, out, err)? {
                break;
            }
        }
        out.flush().map_err(LineFault::of_writing)
    }

    /// Shows the datagram of the next line. Returns whether there was one.
    fn show_next<R: Read + Drop, W: Write, E: Write>(
        &mut self,
        input: &mut BufReader<R>,
        out: &mut W,
        err: &mut E,
    ) -> Result<bool, LineFault> {
        match self.try_show_next(input, out, err) {
            Err(fault) if self.goes_on_after(fault) => {
                // What was shown before is written before the code.
                out.flush().map_err(LineFault::of_writing)?;
                self.report(fault, err);
                self.has_bad_line = true;
                if fault == LineFault::TooLong {
                    skip_line(input, &mut self.line)?;
                }
                Ok(true)
            }
            outcome => outcome,
        }
    }

    /// A line of which all was read already is shown where it is. Before another is waited for,
    /// what was shown is flushed.
    fn try_show_next<R: Read + Drop, W: Write, E: Write>(
        &mut self,
        input: &mut BufReader<R>,
        out: &mut W,
        err: &mut E,
    ) -> Result<bool, LineFault> {
        if let Some(len) = memchr(b'\n', input.buffer()) {
            let outcome = self.show_part(&input.buffer()[..len], out, err);
            input.consume(len + 1);
            return outcome;
        }
        out.flush().map_err(LineFault::of_writing)?;
        if !read_line(input, &mut self.line)? {
            return Ok(false);
        }
        self.lines.show(self.line.as_slice(), out, err)?;
        Ok(true)
    }

    /// Shows the datagram of a line of the buffer, which is kept if it can't be read: the sentence
    /// on it quotes it.
    fn show_part<W: Write, E: Write>(
        &mut self,
        line: &[u8],
        out: &mut W,
        err: &mut E,
    ) -> Result<bool, LineFault> {
        let outcome = self.lines.show(line, out, err);
        if outcome.is_err() {
            self.line.clear();
            self.line.extend_from_slice(line)?;
        }
        outcome.map(|()| true)
    }

    /// Whether the next line can be shown after a line with this fault.
    fn goes_on_after(&self, fault: LineFault) -> bool {
        let is_of_input = !matches!(
            fault,
            LineFault::Read | LineFault::Write | LineFault::Memory
        );
        matches!(self.bad_lines, BadLines::GoOn) && is_of_input
    }

    /// Writes the line's number and code, and the sentence if it is wanted. If writing fails, the
    /// status still reports the fault.
    fn report<E: Write>(&self, fault: LineFault, err: &mut E) {
        let number = self.lines.number;
        let _ = match number {
            0 => report(fault, err),
            _ => refuse(&LineCode { number, fault }, err),
        };
        // Why writing failed is known to the writer alone.
        if self.lines.details == Details::Hidden || fault == LineFault::Write {
            return;
        }
        let detail: LineDetail<'_> = explain_shown_line(self.line.as_slice(), fault);
        let _ = writeln!(err, "standard input:{number}{detail}");
    }
}

impl LineShower {
    fn new(alloc: Global, options: LineOptions<'_>) -> Result<LineShower, LineFault> {
        let source = read_source(options.source)?;
        let octets = vec![in alloc; 0u8; MAX_LINE_LEN / 2]?;
        Ok(LineShower {
            source,
            heads: Heads {
                header: options.header,
                is_first: true,
            },
            details: options.details,
            seen: SeenCodes::new(),
            number: 0,
            octets,
            placed: Vec::new(alloc),
            page: [0; PAGE_LEN],
        })
    }

    /// Shows the datagram of the line, if it has one.
    fn show<W: Write, E: Write>(
        &mut self,
        line: &[u8],
        out: &mut W,
        err: &mut E,
    ) -> Result<(), LineFault> {
        if is_skipped(line) {
            return Ok(());
        }
        let (source, hex) = parse_line(line, self.source)?;
        let Some(datagram) = parse_octets(hex, self.octets.as_mut_slice()) else {
            return Err(LineFault::Hex);
        };
        self.heads.write(self.number, source, out)?;
        match decode_into(datagram, source, &mut self.placed) {
            Ok(()) => self.show_places(out, err),
            Err(Refusal::Memory) => Err(LineFault::Memory),
            Err(refusal) => self.show_refusal(refusal, out, err),
        }
    }

    /// Writes a line for each place of the datagram, and the sentence of each of their codes, if it
    /// is wanted and new.
    fn show_places<W: Write, E: Write>(
        &mut self,
        out: &mut W,
        err: &mut E,
    ) -> Result<(), LineFault> {
        write_places(self.placed.as_slice(), &mut self.page, out)?;
        if self.details == Details::Hidden {
            return Ok(());
        }
        let origin = Origin::Line(self.number);
        explain_places(self.placed.as_slice(), origin, &mut self.seen, out, err)
    }

    /// Writes the line of a refused datagram, and the sentence of its code, if it is wanted and
    /// new.
    fn show_refusal<W: Write, E: Write>(
        &mut self,
        refusal: Refusal,
        out: &mut W,
        err: &mut E,
    ) -> Result<(), LineFault> {
        write_refusal(refusal, out)?;
        if self.details == Details::Hidden {
            return Ok(());
        }
        let origin = Origin::Line(self.number);
        explain_refusal(refusal, origin, &mut self.seen, out, err)
    }
}
