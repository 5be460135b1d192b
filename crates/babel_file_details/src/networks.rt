//! Why no network can be made of configurations.

use crate::configs::config_problem;
use crate::findings::Finding;
use crate::locations::Owner;
use crate::sentences::Word;
use babel_machine::NetFault;
use babel_state::{Config, Interface};
use babel_value::Addr;

/// The most nodes of a network.
const MAX_NODES: usize = 64;

/// The cause of a fault whose code is known.
pub(crate) fn network_problem(configs: &[Config], fault: NetFault) -> Option<Finding<'static>> {
    match fault {
        NetFault::TooManyNodes => {
            let words = [Word::Count(configs.len()), Word::Empty, Word::Empty];
            let text = "there are {} nodes, and at most 64 are allowed";
            Some(Finding::new(Owner::of_node(MAX_NODES).table(), text, words))
        }
        NetFault::BadConfig { node, fault } => {
            config_problem(Owner::of_node(node), configs.get(node)?, fault)
        }
        NetFault::CollectsSources => collects_sources(configs),
        NetFault::AddressTwice => address_twice(configs),
        NetFault::RouterIdTwice => router_id_twice(configs),
        NetFault::Memory => Some(Finding::memory()),
    }
}

/// The first node that collects sources.
fn collects_sources(configs: &[Config]) -> Option<Finding<'static>> {
    for (node, config) in configs.iter().enumerate() {
        if config.collect {
            let owner = Owner::of_node(node);
            let words = [Word::Owner(owner), Word::Empty, Word::Empty];
            let text = "{} collects sources, which a network can't; write collect = false";
            return Some(Finding::new(owner.key("collect"), text, words));
        }
    }
    None
}

/// The first router-id that an earlier node has too.
fn router_id_twice(configs: &[Config]) -> Option<Finding<'static>> {
    for (node, config) in configs.iter().enumerate() {
        for (first, other) in configs.iter().enumerate().take(node) {
            if other.router_id == config.router_id {
                let owner = Owner::of_node(node);
                let words = [Word::Owner(owner), Word::Count(first), Word::Empty];
                let text = "the router-id of {} is that of node {} too";
                return Some(Finding::new(owner.key("router-id"), text, words));
            }
        }
    }
    None
}

/// The first interface with an address that an earlier one has too.
fn address_twice(configs: &[Config]) -> Option<Finding<'static>> {
    for (node, config) in configs.iter().enumerate() {
        for (iface, interface) in config.interfaces.iter().enumerate() {
            let owner = Owner::of_node(node).interface(iface);
            let found = shared_with_earlier(configs, owner, interface);
            if found.is_some() {
                return found;
            }
        }
    }
    None
}

/// An address of the interface that an interface before it has too.
fn shared_with_earlier(
    configs: &[Config],
    owner: Owner,
    interface: &Interface,
) -> Option<Finding<'static>> {
    for (node, config) in configs.iter().enumerate() {
        let found = shared_in(Owner::of_node(node), config, owner, interface);
        if found.is_some() {
            return found;
        }
        if owner.node == Some(node) {
            return None;
        }
    }
    None
}

/// An address of the interface that another one of the configuration has too, among those before
/// it.
pub(crate) fn shared_in(
    config_owner: Owner,
    config: &Config,
    owner: Owner,
    interface: &Interface,
) -> Option<Finding<'static>> {
    for (iface, other) in config.interfaces.iter().enumerate() {
        let other_owner = config_owner.interface(iface);
        if other_owner == owner {
            return None;
        }
        if let Some((key, addr)) = shared_address(interface, other) {
            let words = [
                Word::Addr(addr),
                Word::Owner(owner),
                Word::Owner(other_owner),
            ];
            return Some(Finding::new(owner.key(key), "address {} of {} is that of {} too", words));
        }
    }
    None
}

/// An address that both have, and its key.
fn shared_address(interface: &Interface, other: &Interface) -> Option<(&'static str, Addr)> {
    if let Some(addr) = ipv4_of(interface) {
        if is_same(addr, ipv4_of(other)) {
            return Some(("ipv4", addr));
        }
    }
    let addr = ipv6_of(interface)?;
    if is_same(addr, ipv6_of(other)) {
        Some(("ipv6", addr))
    } else {
        None
    }
}

/// Whether the address is one of the interface's.
pub(crate) fn has_address(interface: &Interface, addr: Addr) -> bool {
    is_same(addr, ipv4_of(interface)) || is_same(addr, ipv6_of(interface))
}

fn is_same(addr: Addr, other: Option<Addr>) -> bool {
    match other {
        Some(other) => addr.cmp(&other).is_eq(),
        None => false,
    }
}

/// The interface's IPv4 address.
fn ipv4_of(interface: &Interface) -> Option<Addr> {
    let (octets, _length) = interface.ipv4?;
    Some(Addr::V4(octets))
}

/// The interface's IPv6 address.
fn ipv6_of(interface: &Interface) -> Option<Addr> {
    let octets = interface.ipv6?;
    Some(Addr::V6(octets))
}
