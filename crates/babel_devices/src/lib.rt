//! The links of a router: devices with a link-local IPv6 address, and the wire over their sockets
//! (RFC 8966, section 4).
//!
//! - `devices`: what the system reports of a device. `tracking`: how the devices change, and what
//!   the launcher reports.
//! - `settings`: the configuration that a speaker gets of the devices.
//! - `sockets`: what a device has. `links`: the wire over all of them.
#![tactic(auto)]

mod devices;
mod errors;
mod links;
mod settings;
mod sockets;
mod tracking;

pub use devices::{Device, Lists};
pub use errors::{DeviceFault, LinkWireFault};
pub use links::{FIRST_OTHER, LinkWire};
pub use settings::{DeviceSettings, Settings, config_of};
pub use tracking::{Ipv4Network, Step, Tracked, hear, network_of};
