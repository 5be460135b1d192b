//! The configuration of a speaker on real links.

use crate::tracking::Tracked;
use babel_state::{Config, Interface};
use babel_value::{Family, Prefix};
use std::alloc::{AllocError, Global};

/// A device that the speaker uses, as the command line names it.
#[derive(Clone, Copy)]
pub struct DeviceSettings<'a> {
    /// The device's name, as `eth0`.
    pub name: &'a str,
    /// Its IPv4 address, and the length of its network's prefix: the next hop of IPv4 prefixes.
    pub ipv4: Option<([u8; 4], u8)>,
    /// Whether that stays, whatever the launcher reports later.
    pub is_ipv4_fixed: bool,
    /// The nominal cost of receiving over it, 1 to 65534 (RFC 8966, appendix A.2.1).
    pub cost: u16,
    /// The interval between two Hellos, 1 to 4000 centiseconds (RFC 8966, section 3.4.1).
    pub hello: u16,
}

/// What is the same for all devices.
#[derive(Clone, Copy)]
pub struct Settings<'a> {
    /// The router-id (RFC 8966, section 4.1.3). Without one it is the end of the first device's
    /// address.
    pub router_id: Option<[u8; 8]>,
    /// The prefixes that the speaker announces.
    pub prefixes: &'a [Prefix],
    /// Whether sources are forgotten after some time. Loop freedom wants that they aren't.
    pub collect: bool,
}

impl Settings<'_> {
    /// The router-id of a speaker on these devices.
    pub fn router_id_on(&self, devices: &[Tracked<'_>]) -> [u8; 8] {
        match (self.router_id, devices.first()) {
            (Some(router_id), _) => router_id,
            (None, Some(device)) => interface_id(device.address),
            (None, None) => [0; 8],
        }
    }
}

/// The end of an IPv6 address: for most devices their EUI-64 (RFC 4291, section 2.5.1).
fn interface_id(address: [u8; 16]) -> [u8; 8] {
    let [_, _, _, _, _, _, _, _, a, b, c, d, e, f, g, h] = address;
    [a, b, c, d, e, f, g, h]
}

/// The speaker's configuration. Each device sends over IPv6 to all routers of its link, so it has
/// no peers.
///
/// # Errors
///
/// An allocation fails.
pub fn config_of(
    alloc: Global,
    settings: Settings<'_>,
    devices: &[Tracked<'_>],
) -> Result<Config, AllocError> {
    let mut interfaces = Vec::new(alloc);
    for device in devices {
        interfaces.push(interface_of(alloc, device))?;
    }
    Ok(Config {
        router_id: settings.router_id_on(devices),
        seqno: 0,
        collect: settings.collect,
        prefixes: settings.prefixes.to_vec(alloc)?,
        interfaces,
    })
}

fn interface_of(alloc: Global, device: &Tracked<'_>) -> Interface {
    Interface {
        transport: Family::Ipv6,
        ipv4: device.settings.ipv4,
        ipv6: Some(device.address),
        peers: Vec::new(alloc),
        cost: device.settings.cost,
        hello: device.settings.hello,
    }
}
