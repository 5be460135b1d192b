//! The standard output, and why it couldn't be written.

use babel_line_details::LineProblem;
use std::env;
use std::io::{self, IsTerminal, Write};
use std::rt::Env;

/// Whether what people read may have colours.
#[derive(Clone, Copy)]
pub enum Colours {
    /// It may.
    Shown,
    /// It may not.
    Hidden,
}

/// Colours are shown at a terminal, unless the environment has `NO_COLOR` with a text that isn't
/// empty.
pub fn colours_at<R: AllocGlobal + Env, O: IsTerminal>(rt: &R, out: &O) -> Colours {
    let is_off = match env::var(rt, "NO_COLOR") {
        Ok(value) => !value.is_empty(),
        Err(_) => false,
    };
    if out.is_terminal() && !is_off {
        Colours::Shown
    } else {
        Colours::Hidden
    }
}

/// A writer that keeps whether it took anything, and why it failed.
#[derive(Drop)]
pub struct NotingWriter<W: Write + Drop> {
    inner: W,
    is_written: bool,
    failure: Option<io::ErrorKind>,
    colours: Colours,
}

impl<W: Write + Drop> NotingWriter<W> {
    /// A writer that took nothing.
    pub fn new(inner: W, colours: Colours) -> NotingWriter<W> {
        NotingWriter {
            inner,
            is_written: false,
            failure: None,
            colours,
        }
    }

    /// Whether what it takes may have colours.
    pub fn colours(&self) -> Colours {
        self.colours
    }

    /// The writer that it writes to.
    pub fn inner_mut(&mut self) -> &mut W {
        &mut self.inner
    }

    /// Whether it took an octet.
    pub fn is_written(&self) -> bool {
        self.is_written
    }

    /// Why the last call that failed did so, if one failed.
    pub fn failure(&self) -> Option<io::ErrorKind> {
        self.failure
    }
}

impl<W: Write + Drop> Write for NotingWriter<W> {
    fn write(&mut self, buf: &[u8]) -> io::Result<usize> {
        match self.inner.write(buf) {
            Ok(count) => {
                self.is_written = self.is_written || count > 0;
                Ok(count)
            }
            Err(error) => {
                self.failure = Some(error.kind());
                Err(error)
            }
        }
    }

    fn flush(&mut self) -> io::Result<()> {
        match self.inner.flush() {
            Ok(()) => Ok(()),
            Err(error) => {
                self.failure = Some(error.kind());
                Err(error)
            }
        }
    }
}

/// Writes why the output couldn't be written.
pub fn explain_output<E: Write>(failure: io::ErrorKind, err: &mut E) -> io::Result<()> {
    let problem = match failure {
        io::ErrorKind::BrokenPipe => LineProblem::BrokenPipe,
        _ => LineProblem::Write,
    };
    writeln!(err, "standard output: {problem}")
}
