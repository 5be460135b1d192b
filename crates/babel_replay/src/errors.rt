//! Why a log can't be replayed.

use babel_state::ConfigFault;
use babel_text::LineFault;
use thiserror::Error;

/// Why a log isn't replayed to its end.
#[derive(Clone, Copy, Debug, PartialEq, Eq, Error)]
pub enum ReplayFault {
    /// C1 to C7: no speaker can be made. Nothing was read or written.
    #[error("{0}")]
    Config(#[from] ConfigFault),
    /// L1 to L8, at a line.
    #[error("line {number}: {fault}")]
    Line {
        /// The line's number. The first line has 1, and each line counts.
        number: u64,
        /// What is wrong with it.
        fault: LineFault,
    },
}
