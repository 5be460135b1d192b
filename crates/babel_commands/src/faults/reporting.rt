//! How a fault is written.

use crate::faults::Fault;
use crate::showing::{Status, refuse};
use std::io::Write;

/// Writes `babel: ` and the code of the fault. A refused event is a line of the output already.
pub fn report<E: Write>(fault: Fault, err: &mut E) -> Status {
    match fault {
        Fault::Event(_, _) => Status::Refused,
        fault => refuse(&fault, err),
    }
}

/// The status of a command. Its fault is written.
pub fn end<E: Write>(outcome: Result<(), Fault>, err: &mut E) -> Status {
    match outcome {
        Ok(()) => Status::Done,
        Err(fault) => report(fault, err),
    }
}
