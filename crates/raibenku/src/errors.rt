//! Why a speaker can't speak over UDP, or ends early.

use babel_snapshot_file::{RestoreCode, SnapshotFileFault};
use babel_state::{ConfigFault, RestoreFault};
use babel_text::LineFault;
use std::alloc::AllocError;
use std::fmt;
use thiserror::Error;

/// Why a speaker can't speak, or stops.
#[derive(Clone, Copy, Debug, PartialEq, Eq, Error)]
pub enum SpeakFault {
    /// C1 to C7: no speaker can be made of the configuration.
    #[error(transparent)]
    Config(#[from] ConfigFault),
    /// W1: an interface has IPv6 transport.
    #[error("an interface has IPv6 transport")]
    Transport,
    /// K8, K9, K10 and L8: the file of a snapshot can't be read, written or locked.
    #[error(transparent)]
    SnapshotFile(#[from] SnapshotFileFault),
    /// K1 to K7, or C7: no speaker can be restored from the snapshot.
    #[error(transparent)]
    Restore(#[from] RestoreFault),
    /// W2: a socket can't be made, for instance since the address isn't one of this machine.
    #[error("a socket can't be made")]
    Socket,
    /// W7: the control socket can't be made.
    #[error("the control socket can't be made")]
    Control,
    /// L7 and L8: writing failed, or an allocation failed.
    #[error(transparent)]
    Output(#[from] LineFault),
}

impl From<AllocError> for SpeakFault {
    fn from(error: AllocError) -> SpeakFault {
        SpeakFault::Output(LineFault::from(error))
    }
}

impl SpeakFault {
    /// The code that the program prints, as `W2` or `K6 0`.
    pub fn code(self) -> SpeakCode {
        SpeakCode { fault: self }
    }
}

/// The code of a fault as text, with the number of the record after `K6` and `K7`.
#[derive(Clone, Copy)]
pub struct SpeakCode {
    /// The fault.
    pub fault: SpeakFault,
}

impl fmt::Display for SpeakCode {
    fn fmt<W: fmt::Write>(&self, f: &mut fmt::Formatter<W>) -> fmt::Result {
        let code = match self.fault {
            SpeakFault::Config(fault) => fault.code(),
            SpeakFault::Transport => "W1",
            SpeakFault::SnapshotFile(fault) => fault.code(),
            SpeakFault::Restore(fault) => return RestoreCode { fault }.fmt(f),
            SpeakFault::Socket => "W2",
            SpeakFault::Control => "W7",
            SpeakFault::Output(fault) => fault.code(),
        };
        f.write_str(code)
    }
}
