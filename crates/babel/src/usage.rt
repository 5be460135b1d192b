//! What is written in place of a command's output: a fault of the command line, the help or the
//! version.

use babel_arguments::WordsFault;
use babel_commands::{Status, report};
use babel_text::LineFault;
use clap::error::ErrorKind;
use std::io::Write;

/// Writes why the words can't be read.
pub(crate) fn report_words<E: Write>(fault: WordsFault, err: &mut E) -> Status {
    match fault {
        WordsFault::NotText => {
            // If writing fails too, the status still reports the error.
            let _ = writeln!(err, "babel: the command line isn't UTF-8");
            Status::Usage
        }
        WordsFault::Memory => report(LineFault::Memory, err),
    }
}

/// Writes what `clap` returned in place of arguments: a fault of them to `err`, the help or the
/// version to `out`.
pub(crate) fn write_usage<W: Write, E: Write>(
    error: &clap::Error,
    out: &mut W,
    err: &mut E,
) -> Result<Status, LineFault> {
    if error.kind() == ErrorKind::OutOfMemory {
        return Err(LineFault::Memory);
    }
    if error.use_stderr() {
        write!(err, "{error}").map_err(LineFault::of_writing)?;
        return Ok(Status::Usage);
    }
    write!(out, "{error}").map_err(LineFault::of_writing)?;
    out.flush().map_err(LineFault::of_writing)?;
    Ok(Status::Done)
}
