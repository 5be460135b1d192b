//! Which node has an address.

ghost use Rattle.std.specs.Prelude.{◌≡◌, Some, OnOk, IfOk, if◌then◌else◌};
ghost use Rattle.std.specs.BTreeMap.{get};
ghost use Rattle.babel_value.specs.declared.addresses.Addr.{Addr};
ghost use Rattle.babel_value.specs.Orders.{addr_cmp};
ghost use Rattle.babel_machine.specs.Owners.{owner_of, addresses_of, interface_addresses, has_addr, listed};
ghost use Rattle.babel_state.specs.Addresses.{address_of};
ghost use Rattle.babel_state.specs.Calls.{new_interface};

use babel_state::{Config, Interface};
use babel_value::{Addr, Family};
use std::alloc::{AllocError, Global};
use std::collections::BTreeMap;

/// The nodes by their addresses, in the order of the addresses.
#[derive(Drop)]
pub struct Owners {
    /// The number of the node that has the address.
    pub nodes: BTreeMap<Addr, usize>,
}

impl Owners {
    /// The owners of the addresses of the configurations.
    ///
    /// # Errors
    ///
    /// An allocation failed.
    pub fn new(alloc: Global, configs: &[Config]) -> Result<Owners, AllocError>
        ensures { IfOk result (λ owners. (addr : Addr) → get addr_cmp owners.nodes addr ≡ owner_of configs.now addr) }
    {
        let mut nodes = BTreeMap::new(alloc);
        let mut left = configs.len();
        while left > 0 {
            left -= 1;
            add_config(&mut nodes, left, &configs[left])?;
        }
        Ok(Owners { nodes })
    }

    /// The node that has the address, if any.
    pub fn owner(&self, addr: &Addr) -> Option<usize>
        ensures { result ≡ get addr_cmp self.now.nodes addr.now }
    {
        self.nodes.get(addr).copied()
    }
}

/// Adds the addresses of a node.
#[tactic(auto, using(crate::proofs::SharedAddresses::put_more))]
fn add_config(
    nodes: &mut BTreeMap<Addr, usize>,
    node: usize,
    config: &Config,
) -> Result<(), AllocError>
    ensures { OnOk result ((addr : Addr) → get addr_cmp nodes.new addr ≡ (if has_addr addr (addresses_of config.now) then Some node else get addr_cmp nodes.old addr)) }
{
    for interface in &config.interfaces {
        add_interface(nodes, node, interface)?;
    }
    Ok(())
}

/// Adds the addresses of an interface of a node.
fn add_interface(
    nodes: &mut BTreeMap<Addr, usize>,
    node: usize,
    interface: &Interface,
) -> Result<(), AllocError>
    ensures { OnOk result ((addr : Addr) → get addr_cmp nodes.new addr ≡ (if has_addr addr (interface_addresses interface.now) then Some node else get addr_cmp nodes.old addr)) }
{
    add_addr(nodes, node, address_of(Family::Ipv4, interface))?;
    add_addr(nodes, node, address_of(Family::Ipv6, interface))
}

/// Adds an address of a node, if there is one.
fn add_addr(
    nodes: &mut BTreeMap<Addr, usize>,
    node: usize,
    addr: Option<Addr>,
) -> Result<(), AllocError>
    ensures { OnOk result ((one : Addr) → get addr_cmp nodes.new one ≡ (if has_addr one (listed addr) then Some node else get addr_cmp nodes.old one)) }
{
    if let Some(addr) = addr {
        nodes.insert(addr, node)?;
    }
    Ok(())
}

/// The own address of the interface of a family, if it has one.
pub(crate) fn address_of(family: Family, interface: &Interface) -> Option<Addr>
    ensures { result ≡ address_of family (new_interface interface.now) }
{
    let ipv4 = interface.ipv4;
    let ipv6 = interface.ipv6;
    match family {
        Family::Ipv4 => match ipv4 {
            Some(network) => {
                let octets = network.0;
                Some(Addr::V4(octets))
            }
            None => None,
        },
        Family::Ipv6 => match ipv6 {
            Some(octets) => Some(Addr::V6(octets)),
            None => None,
        },
    }
}
