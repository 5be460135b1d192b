//! Why a command refuses.

use crate::hops::EventFault;
use crate::showing::LineCode;
use babel_config::FileFault;
use babel_machine::NetFault;
use babel_replay::ReplayFault;
use babel_snapshot_file::{RestoreCode, SnapshotFileFault};
use babel_state::{ConfigFault, RestoreFault};
use babel_text::LineFault;
use std::alloc::AllocError;
use std::fmt;

/// Why a command refuses. The text is the code, with the number that belongs to it.
#[derive(Clone, Copy)]
pub enum Fault {
    /// F1 to F6: a file has no configuration or scenario, or an argument isn't a prefix.
    File(FileFault),
    /// C1 to C7: no speaker can be made of the configuration.
    Config(ConfigFault),
    /// K8, K9 and L8: the file of a snapshot can't be read or written.
    SnapshotFile(SnapshotFileFault),
    /// K1 to K7, or C1 to C7: no speaker can be restored from the snapshot.
    Restore(RestoreFault),
    /// M1 to M7: no network can be made of the configurations.
    Net(NetFault),
    /// N1 to N8: the event of this number is refused. The output has its line.
    Event(usize, EventFault),
    /// L1 to L8, at the line of this number.
    Line(u64, LineFault),
    /// L3, L4, L7 and L8: an argument can't be read, writing failed, or an allocation failed.
    Output(LineFault),
    /// W1: an interface has IPv6 transport.
    Transport,
    /// W2: a socket can't be made.
    Socket,
    /// W7: the control socket can't be made.
    Control,
}

impl fmt::Display for Fault {
    fn fmt<W: fmt::Write>(&self, f: &mut fmt::Formatter<W>) -> fmt::Result {
        match *self {
            Fault::File(fault) => write!(f, "{}", fault.code()),
            Fault::Config(fault) => f.write_str(fault.code()),
            Fault::SnapshotFile(fault) => f.write_str(fault.code()),
            Fault::Restore(fault) => write!(f, "{}", RestoreCode { fault }),
            Fault::Net(NetFault::BadConfig { node, fault }) => {
                write!(f, "M7 {node} {}", fault.code())
            }
            Fault::Net(fault) => f.write_str(fault.code()),
            Fault::Event(number, fault) => write!(f, "{number} refused {}", fault.code()),
            Fault::Line(number, fault) => write!(f, "{}", LineCode { number, fault }),
            Fault::Output(fault) => f.write_str(fault.code()),
            Fault::Transport => f.write_str("W1"),
            Fault::Socket => f.write_str("W2"),
            Fault::Control => f.write_str("W7"),
        }
    }
}

impl From<FileFault> for Fault {
    fn from(fault: FileFault) -> Fault {
        Fault::File(fault)
    }
}

impl From<ConfigFault> for Fault {
    fn from(fault: ConfigFault) -> Fault {
        Fault::Config(fault)
    }
}

impl From<SnapshotFileFault> for Fault {
    fn from(fault: SnapshotFileFault) -> Fault {
        Fault::SnapshotFile(fault)
    }
}

impl From<RestoreFault> for Fault {
    fn from(fault: RestoreFault) -> Fault {
        Fault::Restore(fault)
    }
}

impl From<NetFault> for Fault {
    fn from(fault: NetFault) -> Fault {
        Fault::Net(fault)
    }
}

impl From<LineFault> for Fault {
    fn from(fault: LineFault) -> Fault {
        Fault::Output(fault)
    }
}

impl From<ReplayFault> for Fault {
    fn from(fault: ReplayFault) -> Fault {
        match fault {
            ReplayFault::Config(fault) => Fault::Config(fault),
            ReplayFault::Line { number, fault } => Fault::Line(number, fault),
        }
    }
}

impl From<AllocError> for Fault {
    fn from(_error: AllocError) -> Fault {
        Fault::Output(LineFault::Memory)
    }
}
