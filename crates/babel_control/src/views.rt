//! What the control socket shows: a speaker, its devices and its counts.

use crate::Tables;
use babel_value::RouterId;

/// The addresses of a device that is up.
#[derive(Clone, Copy, PartialEq, Eq)]
pub struct DeviceAddresses {
    /// Its link-local address.
    pub ipv6: Option<[u8; 16]>,
    /// Its IPv4 address.
    pub ipv4: Option<[u8; 4]>,
}

/// A device of the speaker.
#[derive(Clone, Copy)]
pub struct DeviceView<'v> {
    /// Its name, as `eth0`.
    pub name: &'v str,
    /// Its addresses. `None`: it can't be used now.
    pub addresses: Option<DeviceAddresses>,
}

/// What was counted in the turns of a speaker.
#[derive(Clone, Copy, Default)]
pub struct TurnCounts {
    /// The turns.
    pub turns: u64,
    /// The datagrams that were received.
    pub received: u64,
    /// The datagrams that were sent.
    pub sent: u64,
    /// The datagrams that were refused.
    pub refused: u64,
    /// The calls of the system that failed.
    pub faults: u64,
}

/// Whether the speaker's snapshot is kept over a restart.
#[derive(Clone, Copy)]
pub enum Keeping {
    /// It is: what is on the disk is the snapshot of now.
    Kept,
    /// It could not be kept the last time that it changed.
    Failed,
    /// The speaker runs without a file for it.
    Never,
}

/// Whether the speaker has a log that a client can be sent.
#[derive(Clone, Copy)]
pub enum LogSource {
    /// It has.
    Speaker,
    /// It has none.
    Nothing,
}

/// What the control socket shows.
#[derive(Drop)]
pub struct View<'v, T: Tables> {
    /// The speaker.
    pub tables: &'v T,
    /// Its router-id.
    pub router: RouterId,
    /// The moment, in centiseconds.
    pub now: u64,
    /// Its devices, by the numbers of the interfaces.
    pub devices: &'v [DeviceView<'v>],
    /// The name of the machine.
    pub host: &'v str,
    /// What was counted.
    pub counts: TurnCounts,
    /// Whether its snapshot is kept.
    pub keeping: Keeping,
    /// Whether it has a log.
    pub log: LogSource,
}
