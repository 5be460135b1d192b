//! Why the command `run` refuses, or ends early.

use babel_config::FileFault;
use babel_devices::{DeviceFault, LinkWireFault};
use babel_snapshot_file::{RestoreCode, SnapshotFileFault};
use babel_state::{ConfigFault, RestoreFault};
use babel_text::LineFault;
use std::alloc::AllocError;
use std::fmt;
use thiserror::Error;

/// Why the command `run` refuses, or ends early.
#[derive(Clone, Copy, Debug, Error)]
pub enum RunFault {
    /// C1 to C7: no speaker can be made of the settings.
    #[error(transparent)]
    Config(#[from] ConfigFault),
    /// W2 to W5: the device of this number in the command line can't be used.
    #[error("device {0} {1}")]
    Device(usize, DeviceFault),
    /// W6: what the system reports of devices can't be read.
    #[error("/proc/net/if_inet6 or /proc/net/igmp6 can't be read")]
    System,
    /// W7: the control socket can't be made.
    #[error("can't be made a control socket")]
    Control,
    /// K8, K9, K10 and L8: the file of the snapshot can't be read, kept or locked.
    #[error(transparent)]
    SnapshotFile(#[from] SnapshotFileFault),
    /// K1 to K7, or C7: no speaker can be restored from the snapshot.
    #[error(transparent)]
    Restore(#[from] RestoreFault),
    /// L7 and L8: writing failed, or an allocation failed.
    #[error(transparent)]
    Output(#[from] LineFault),
}

/// Why what the command line and the file of `--config` ask for isn't run.
#[derive(Clone, Copy)]
pub enum WordsFault<'a> {
    /// F3: a prefix can't be read.
    Prefix(&'a str),
    /// F3: the router-id can't be read.
    RouterId(&'a str),
    /// F3: the IPv4 address of a device can't be read.
    Address(&'a str),
    /// F3: this is the address of a device that the speaker doesn't use.
    OtherDevice(&'a str),
    /// F3: the device is named twice.
    Twice(&'a str),
    /// F1 to F5: the file is refused.
    File(FileFault),
    /// The run is refused, or ended early.
    Run(RunFault),
}

impl From<AllocError> for RunFault {
    fn from(error: AllocError) -> RunFault {
        RunFault::Output(LineFault::from(error))
    }
}

impl From<LinkWireFault> for RunFault {
    fn from(fault: LinkWireFault) -> RunFault {
        match fault {
            LinkWireFault::System => RunFault::System,
            LinkWireFault::Memory(error) => RunFault::from(error),
        }
    }
}

impl RunFault {
    /// The code that the program prints, as `W2` or `K6 0`.
    pub fn code(self) -> RunCode {
        RunCode { fault: self }
    }
}

/// The code of a fault as text, with the number of the record after `K6` and `K7`.
#[derive(Clone, Copy)]
pub struct RunCode {
    /// The fault.
    pub fault: RunFault,
}

impl fmt::Display for RunCode {
    fn fmt<W: fmt::Write>(&self, f: &mut fmt::Formatter<W>) -> fmt::Result {
        let code = match self.fault {
            RunFault::Config(fault) => fault.code(),
            RunFault::Device(_, DeviceFault::Socket) => "W2",
            RunFault::Device(_, DeviceFault::NoAddress) => "W3",
            RunFault::Device(_, DeviceFault::Tentative) => "W4",
            RunFault::Device(_, DeviceFault::NotMember) => "W5",
            RunFault::System => "W6",
            RunFault::Control => "W7",
            RunFault::SnapshotFile(fault) => fault.code(),
            RunFault::Restore(fault) => return RestoreCode { fault }.fmt(f),
            RunFault::Output(fault) => fault.code(),
        };
        f.write_str(code)
    }
}
