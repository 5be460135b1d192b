//! What the sockets need of a configuration.

use babel_state::{Config, Interface};
use babel_value::{Addr, Family};
use std::alloc::{AllocError, Global};

/// An interface: the IPv4 address over which it sends, if that is its transport, and its peers.
#[derive(Drop)]
pub(crate) struct Link {
    pub(crate) address: Option<[u8; 4]>,
    pub(crate) peers: Vec<Addr>,
}

/// What the sockets need of the interfaces of a configuration, by their numbers.
#[derive(Drop)]
pub struct Links {
    pub(crate) links: Vec<Link>,
}

impl Link {
    fn of(alloc: Global, interface: &Interface) -> Result<Link, AllocError> {
        let address = address_of(interface);
        let peers = interface.peers.to_vec(alloc)?;
        Ok(Link { address, peers })
    }
}

/// The IPv4 address over which the interface sends, if that is its transport.
fn address_of(interface: &Interface) -> Option<[u8; 4]> {
    match interface.transport {
        Family::Ipv4 => {
            let network = interface.ipv4?;
            Some(network.0)
        }
        Family::Ipv6 => None,
    }
}

impl Links {
    /// The links of the configuration's interfaces.
    ///
    /// # Errors
    ///
    /// An allocation failed.
    pub fn of(alloc: Global, config: &Config) -> Result<Links, AllocError> {
        let mut links = Vec::new(alloc);
        for interface in &config.interfaces {
            links.push(Link::of(alloc, interface)?)?;
        }
        Ok(Links { links })
    }

    /// Whether each interface has IPv4 transport.
    pub fn have_addresses(&self) -> bool {
        for link in &self.links {
            if link.address.is_none() {
                return false;
            }
        }
        true
    }
}
