//! The writer through which the standard output goes.

ghost use Rattle.std.specs.Prelude.{◌<◌, length, IfSome};

use crate::reports::{Origin, Report, datagram_object, object_of};
use crate::shortening::push_short;
use crate::words::Words;
use memchr::memchr;
use std::alloc::Global;
use std::io::{self, ErrorKind, Write};
use std::mem::swap;

/// What a line with the source of a datagram begins with.
const HEAD: &[u8] = b"# ";

/// How IPv6 addresses are written.
#[derive(Clone, Copy, PartialEq, Eq)]
pub enum Addresses {
    /// In eight groups.
    Full,
    /// As RFC 5952 writes them.
    Short,
}

/// The form of what is written.
#[derive(Clone, Copy)]
pub enum Form {
    /// The text as it is.
    AsWritten,
    /// The text with short addresses.
    Short,
    /// A JSON object for each line of the report.
    Json(Report, Addresses),
}

/// A writer that takes text, and writes it in a form. A part of a line waits for the rest.
#[derive(Drop)]
pub struct FormWriter<W: Write + Drop> {
    alloc: Global,
    inner: W,
    form: Form,
    /// The part of a line that came.
    line: Vec<u8>,
    /// Room for the line with short addresses.
    short: Vec<u8>,
    /// What is to be written of the text that came.
    made: Vec<u8>,
    /// The line `# <line> <source>` before the lines of a datagram; empty if none came.
    head: Vec<u8>,
    /// Why a call failed. Each later call fails too: a part of what came is lost.
    failure: Option<ErrorKind>,
}

impl<W: Write + Drop> FormWriter<W> {
    /// A writer that writes the text as it is.
    pub fn new(alloc: Global, inner: W) -> FormWriter<W> {
        FormWriter {
            alloc,
            inner,
            form: Form::AsWritten,
            line: Vec::new(alloc),
            short: Vec::new(alloc),
            made: Vec::new(alloc),
            head: Vec::new(alloc),
            failure: None,
        }
    }

    /// Sets the form of what comes from now on.
    pub fn set_form(&mut self, form: Form) {
        self.form = form;
    }

    /// Writes each whole line of the text in the form.
    fn convert(&mut self, text: &[u8]) -> io::Result<()> {
        self.made.clear();
        let mut rest = text;
        while let Some((part, after)) = split_line(rest) {
            self.line.extend_from_slice(part)?;
            self.end_line()?;
            self.line.clear();
            rest = after;
        }
        self.line.extend_from_slice(rest)?;
        self.inner.write_all(self.made.as_slice())
    }

    /// Makes what the line becomes.
    fn end_line(&mut self) -> io::Result<()> {
        let form = self.form;
        match form {
            Form::AsWritten => {}
            Form::Short => self.shorten()?,
            Form::Json(report, Addresses::Full) => return self.push_object(report),
            Form::Json(report, Addresses::Short) => {
                self.shorten()?;
                return self.push_object(report);
            }
        }
        self.made.extend_from_slice(self.line.as_slice())?;
        Ok(self.made.push(b'\n')?)
    }

    /// The addresses of the line become short.
    fn shorten(&mut self) -> io::Result<()> {
        self.short.clear();
        push_short(text_in(self.line.as_slice())?, &mut self.short)?;
        swap(&mut self.line, &mut self.short);
        Ok(())
    }

    /// Appends the object of the line. Empty lines are between the datagrams of `show`.
    fn push_object(&mut self, report: Report) -> io::Result<()> {
        if self.line.is_empty() {
            return Ok(());
        }
        let is_head = self.line.starts_with(HEAD);
        if is_head {
            swap(&mut self.line, &mut self.head);
        }
        let origin = origin_in(text_in(self.head.as_slice())?);
        if is_head {
            return datagram_object(origin).push_to(self.alloc, &mut self.made);
        }
        object_of(report, origin, text_in(self.line.as_slice())?).push_to(
            self.alloc,
            &mut self.made,
        )
    }
}

/// The octets before the first line feed, and those after it. It is searched by words, not octet by
/// octet.
pub(crate) fn split_line(text: &[u8]) -> Option<(&[u8], &[u8])>
    ensures { IfSome result (λ parts. length parts.1.now < length text.now) }
{
    let at = memchr(b'\n', text)?;
    Some((&text[..at], &text[at + 1..]))
}

/// The octets as text, which every line is.
pub(crate) fn text_in(octets: &[u8]) -> io::Result<&str> {
    match str::from_utf8(octets) {
        Ok(text) => Ok(text),
        Err(_) => Err(io::Error::from(ErrorKind::InvalidData)),
    }
}

/// The line of the input and the source of a datagram, which `# <line> <source>` has.
fn origin_in(head: &str) -> Origin<'_> {
    let mut words = Words::new(head);
    words.expect("#");
    Origin {
        line: words.optional_number(),
        source: words.optional_word(),
    }
}

impl<W: Write + Drop> Write for FormWriter<W> {
    fn write(&mut self, buf: &[u8]) -> io::Result<usize> {
        if matches!(self.form, Form::AsWritten) {
            return self.inner.write(buf);
        }
        if let Some(kind) = self.failure {
            return Err(io::Error::from(kind));
        }
        match self.convert(buf) {
            Ok(()) => Ok(buf.len()),
            Err(error) => {
                self.failure = Some(error.kind());
                Err(error)
            }
        }
    }

    fn flush(&mut self) -> io::Result<()> {
        self.inner.flush()
    }
}
