//! Why a device can't be used, and why there is no wire.

use std::alloc::AllocError;
use thiserror::Error;

/// Why a speaker can't use a device.
#[derive(Clone, Copy, Debug, PartialEq, Eq, Error)]
pub enum DeviceFault {
    /// No device of this name has a link-local IPv6 address.
    #[error("has no link-local IPv6 address: there is no such device, or it is down")]
    NoAddress,
    /// The system still finds out whether the address is another machine's (RFC 4862, section 5.4).
    #[error("has a tentative link-local IPv6 address")]
    Tentative,
    /// Nobody on this machine has joined the group of Babel routers on the device.
    #[error("isn't a member of the group ff02::1:6: start the command by ./babel run")]
    NotMember,
    /// A socket can't be made.
    #[error("can't be bound to its UDP port, which another program may have")]
    Socket,
}

impl DeviceFault {
    /// Whether it may pass while the speaker runs: the device comes up, or is created.
    pub fn may_pass(self) -> bool {
        matches!(self, DeviceFault::NoAddress | DeviceFault::Tentative)
    }
}

/// Why no wire over links can be made.
#[derive(Clone, Copy)]
pub enum LinkWireFault {
    /// The system's clock can't be read, or nothing can be waited for.
    System,
    /// An allocation failed.
    Memory(AllocError),
}

impl From<AllocError> for LinkWireFault {
    fn from(error: AllocError) -> LinkWireFault {
        LinkWireFault::Memory(error)
    }
}
