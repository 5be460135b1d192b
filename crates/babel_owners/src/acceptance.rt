//! Which configurations a network can be made of.

ghost use Rattle.std.specs.Prelude.{◌≡◌, Some, flat_map};
ghost use Rattle.babel_machine.specs.Acceptance.{net_fault, first_bad_from, has_addr_twice, has_router_twice, fault_together};
ghost use Rattle.babel_machine.specs.Owners.{addresses_of, interface_addresses, has_addr, listed};
ghost use Rattle.babel_owners.specs.Shared.{share};
ghost use Rattle.babel_state.specs.Sameness.{is_same_router};
ghost use Rattle.std.specs.List.{list_any};

use crate::owners::address_of;
use babel_machine::NetFault;
use babel_state::{Config, Interface};
use babel_value::{Addr, Family};

/// The most nodes of a network.
const MAX_NODES: usize = 64;

/// Why no network can be made of the configurations: the first cause of M5, M7 with C1 to C6, M4,
/// M1 and M2.
pub fn net_fault(configs: &[Config]) -> Option<NetFault>
    ensures { result ≡ net_fault configs.now }
{
    if configs.len() > MAX_NODES {
        return Some(NetFault::TooManyNodes);
    }
    if let Some(fault) = first_bad(configs) {
        return Some(fault);
    }
    fault_together(configs)
}

/// The first fault of the first configuration that has one.
fn first_bad(configs: &[Config]) -> Option<NetFault>
    ensures { result ≡ first_bad_from 0 configs.now }
{
    let mut node = 0;
    while node < configs.len() {
        if let Err(fault) = configs[node].check() {
            return Some(NetFault::BadConfig { node, fault });
        }
        node += 1;
    }
    None
}

/// What is wrong with configurations that are right each by itself.
fn fault_together(configs: &[Config]) -> Option<NetFault>
    ensures { result ≡ fault_together configs.now }
{
    if configs.iter().any(|config| config.collect) {
        return Some(NetFault::CollectsSources);
    }
    if has_address_twice(configs) {
        return Some(NetFault::AddressTwice);
    }
    if has_router_twice(configs) {
        return Some(NetFault::RouterIdTwice);
    }
    None
}

/// Whether the address is this one.
fn is_this(addr: &Addr, own: &Option<Addr>) -> bool
    ensures { result ≡ has_addr addr.now (listed own.now) }
{
    match own {
        Some(own) => addr.cmp(own).is_eq(),
        None => false,
    }
}

/// Whether the interface has the address.
#[tactic(auto, using(crate::proofs::SharedAddresses::has_append))]
fn is_own(addr: &Addr, interface: &Interface) -> bool
    ensures { result ≡ has_addr addr.now (interface_addresses interface.now) }
{
    is_this(addr, &address_of(Family::Ipv4, interface))
        || is_this(addr, &address_of(Family::Ipv6, interface))
}

/// Whether the address, if there is one, is the interface's.
fn is_some_own(addr: &Option<Addr>, interface: &Interface) -> bool
    ensures { result ≡ share (listed addr.now) (interface_addresses interface.now) }
{
    match addr {
        Some(addr) => is_own(addr, interface),
        None => false,
    }
}

/// Whether an address of the interface is one of the other's.
#[tactic(auto, using(crate::proofs::SharedAddresses::share_append))]
fn share_address(interface: &Interface, other: &Interface) -> bool
    ensures { result ≡ share (interface_addresses interface.now) (interface_addresses other.now) }
{
    is_some_own(&address_of(Family::Ipv4, interface), other)
        || is_some_own(&address_of(Family::Ipv6, interface), other)
}

/// Whether an address of the interface is one of these interfaces'.
fn is_shared(interface: &Interface, others: &[Interface]) -> bool
    ensures { result ≡ share (interface_addresses interface.now) (flat_map interface_addresses others.now) }
{
    others.iter().any(|other| share_address(interface, other))
}

/// Whether an address of the node is one of the other's.
fn share_nodes(config: &Config, other: &Config) -> bool
    ensures { result ≡ share (addresses_of config.now) (addresses_of other.now) }
{
    config
        .interfaces
        .iter()
        .any(|interface| is_shared(interface, &other.interfaces))
}

/// Whether an address of the node is one of these nodes'.
fn is_node_shared(config: &Config, others: &[Config]) -> bool
    ensures { result ≡ share (addresses_of config.now) (flat_map addresses_of others.now) }
{
    others.iter().any(|other| share_nodes(config, other))
}

/// Whether two of the interfaces have the same address.
#[tactic(auto, using(crate::proofs::SharedAddresses::first_interface))]
fn have_shared(interfaces: &[Interface]) -> bool
    ensures { result ≡ has_addr_twice (flat_map interface_addresses interfaces.now) }
{
    let mut rest = interfaces;
    while let Some((first, others)) = rest.split_first() {
        if is_shared(first, others) {
            return true;
        }
        rest = others;
    }
    false
}

/// Whether two interfaces have the same address.
#[tactic(auto, using(crate::proofs::SharedAddresses::first_node))]
fn has_address_twice(configs: &[Config]) -> bool
    ensures { result ≡ has_addr_twice (flat_map addresses_of configs.now) }
{
    let mut rest = configs;
    while let Some((first, others)) = rest.split_first() {
        if have_shared(&first.interfaces) || is_node_shared(first, others) {
            return true;
        }
        rest = others;
    }
    false
}

/// Whether the router-id is that of one of these nodes.
fn is_router_shared(config: &Config, others: &[Config]) -> bool
    ensures { result ≡ list_any (λ other. is_same_router config.now.router_id other.router_id) others.now }
{
    others
        .iter()
        .any(|other| config.router_id.cmp(&other.router_id).is_eq())
}

/// Whether two configurations have the same router-id.
fn has_router_twice(configs: &[Config]) -> bool
    ensures { result ≡ has_router_twice configs.now }
{
    let mut rest = configs;
    while let Some((first, others)) = rest.split_first() {
        if is_router_shared(first, others) {
            return true;
        }
        rest = others;
    }
    false
}
