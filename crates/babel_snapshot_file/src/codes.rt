//! The code of a snapshot that is refused.

use babel_state::RestoreFault;
use std::fmt;

/// The code of a fault as text: `K1` to `K7`, with the number of the record after `K6` and `K7`, or
/// `C1` to `C7`.
#[derive(Clone, Copy)]
pub struct RestoreCode {
    /// The fault.
    pub fault: RestoreFault,
}

impl fmt::Display for RestoreCode {
    ghost use Rattle.std.specs.Prelude.{Some};
    ghost use Rattle.babel_snapshot_file.specs.Codes.{restore_text};

    ghost output = { λ code. Some (restore_text code.fault) };

    fn fmt<W: fmt::Write>(&self, f: &mut fmt::Formatter<W>) -> fmt::Result {
        match self.fault {
            RestoreFault::Record(index) => write!(f, "K6 {index}"),
            RestoreFault::Order(index) => write!(f, "K7 {index}"),
            fault => f.write_str(fault.code()),
        }
    }
}
