//! How a fault of a command is written.

use crate::showing::Status;
use babel_text::LineFault;
use std::fmt;
use std::io::Write;

/// Writes `babel: ` and a code. If writing fails too, the status still reports the fault.
pub fn refuse<C: fmt::Display, E: Write>(code: &C, err: &mut E) -> Status {
    let _ = writeln!(err, "babel: {code}");
    Status::Refused
}

/// Writes `babel: ` and the code of the fault.
pub fn report<E: Write>(fault: LineFault, err: &mut E) -> Status {
    refuse(&fault.code(), err)
}

/// The code of a line's fault, with the number of the line, as `line 3 L4`.
#[derive(Clone, Copy)]
pub struct LineCode {
    /// The number of the line, from 1 on.
    pub number: u64,
    /// What is wrong with it.
    pub fault: LineFault,
}

impl fmt::Display for LineCode {
    fn fmt<W: fmt::Write>(&self, f: &mut fmt::Formatter<W>) -> fmt::Result {
        write!(f, "line {} {}", self.number, self.fault.code())
    }
}
