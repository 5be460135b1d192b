//! The speakers of a topology, and their configurations.

use babel_state::{Config, Interface};
use babel_topology::{Action, Node, Restarts, Topology};
use babel_value::{Addr, Family, Prefix};
use std::alloc::{AllocError, Global};

/// The nominal cost of the interface of a node without links.
const UNUSED_COST: u16 = 96;

/// The IPv6 address of an interface of a speaker: fe80::X:Y, where X is the number of the speaker,
/// and Y that of the interface from 1 on.
pub fn address_of(speaker: usize, iface: usize) -> Addr {
    Addr::V6(ipv6_of(speaker, iface))
}

fn ipv6_of(speaker: usize, iface: usize) -> [u8; 16] {
    let high = octet_of(speaker / 256);
    let low = octet_of(speaker % 256);
    let place = octet_of(iface).saturating_add(1);
    [
        0xfe, 0x80, 0, 0, 0, 0, 0, 0, 0, 0, 0, 0, high, low, 0, place,
    ]
}

/// The IPv4 address of an interface of a speaker, of the network 198.18.0.0/15.
fn ipv4_of(speaker: usize, iface: usize) -> [u8; 4] {
    [
        198,
        18,
        octet_of(speaker % 256),
        octet_of(iface).saturating_add(1),
    ]
}

fn octet_of(number: usize) -> u8 {
    u8::try_from(number).unwrap_or(u8::MAX)
}

/// Adds the prefixes of a topology, in ascending order.
pub(crate) fn add_prefixes(
    topology: &Topology,
    prefixes: &mut Vec<Prefix>,
) -> Result<(), AllocError> {
    for node in &topology.nodes {
        for prefix in &node.prefixes {
            add_prefix(prefixes, *prefix)?;
        }
    }
    for step in &topology.steps {
        if let Action::Announce { prefix, .. } = step.action {
            add_prefix(prefixes, prefix)?;
        }
    }
    for expectation in &topology.expectations {
        add_prefix(prefixes, expectation.prefix)?;
    }
    prefixes.sort_unstable();
    Ok(())
}

fn add_prefix(prefixes: &mut Vec<Prefix>, prefix: Prefix) -> Result<(), AllocError> {
    for other in prefixes.iter() {
        if *other == prefix {
            return Ok(());
        }
    }
    prefixes.push(prefix)?;
    Ok(())
}

/// Adds the node that each speaker of the network runs: a speaker for each node, and one for each
/// time that a node begins again with nothing.
///
/// A node that begins again with nothing isn't the router that it was: it has another router-id and
/// other addresses, as RFC 8966, section 3.2.2, advises routers that keep no seqno. So it is
/// another speaker of the network, which has run nothing until then.
pub(crate) fn add_speakers(
    topology: &Topology,
    speakers: &mut Vec<usize>,
) -> Result<(), AllocError> {
    for node in 0..topology.nodes.len() {
        speakers.push(node)?;
    }
    for step in &topology.steps {
        if let Action::Restart { node } = step.action {
            if begins_empty(topology, node) {
                speakers.push(node)?;
            }
        }
    }
    Ok(())
}

/// Whether the node begins again with nothing.
pub(crate) fn begins_empty(topology: &Topology, node: usize) -> bool {
    match topology.nodes.get(node) {
        Some(node) => matches!(node.restarts, Restarts::Empty),
        None => false,
    }
}

/// The configurations of the network that runs a topology, one for each speaker.
///
/// # Errors
///
/// `AllocError` if an allocation fails.
pub fn configs(alloc: Global, topology: &Topology) -> Result<Vec<Config>, AllocError> {
    let mut speakers = Vec::new(alloc);
    add_speakers(topology, &mut speakers)?;
    configs_of(alloc, topology, &speakers)
}

fn configs_of(
    alloc: Global,
    topology: &Topology,
    speakers: &[usize],
) -> Result<Vec<Config>, AllocError> {
    let mut configs = Vec::with_capacity(alloc, speakers.len())?;
    for (speaker, number) in speakers.iter().enumerate() {
        if let Some(node) = topology.nodes.get(*number) {
            configs.push(config_of(alloc, topology, speaker, (*number, node))?)?;
        }
    }
    Ok(configs)
}

fn config_of(
    alloc: Global,
    topology: &Topology,
    speaker: usize,
    (number, node): (usize, &Node),
) -> Result<Config, AllocError> {
    Ok(Config {
        router_id: router_id_of(node, speaker, number),
        seqno: 0,
        collect: false,
        prefixes: prefixes_at(alloc, topology, number, node)?,
        interfaces: interfaces_at(alloc, topology, speaker, (number, node))?,
    })
}

/// The prefixes that the node ever announces.
fn prefixes_at(
    alloc: Global,
    topology: &Topology,
    number: usize,
    node: &Node,
) -> Result<Vec<Prefix>, AllocError> {
    let mut prefixes = Vec::new(alloc);
    for prefix in &node.prefixes {
        add_prefix(&mut prefixes, *prefix)?;
    }
    for step in &topology.steps {
        if let Action::Announce { node, prefix } = step.action {
            if node == number {
                add_prefix(&mut prefixes, prefix)?;
            }
        }
    }
    Ok(prefixes)
}

/// The node's router-id. A later speaker of the node has another one, which no node has by its
/// number.
fn router_id_of(node: &Node, speaker: usize, number: usize) -> [u8; 8] {
    let mut router_id = node.router_id;
    if speaker != number {
        router_id = [
            0xfe,
            0xff,
            0,
            0,
            0,
            0,
            octet_of(speaker / 256),
            octet_of(speaker % 256),
        ];
    }
    router_id
}

/// The interfaces of a speaker of the node. A node without links has one too.
fn interfaces_at(
    alloc: Global,
    topology: &Topology,
    speaker: usize,
    (number, node): (usize, &Node),
) -> Result<Vec<Interface>, AllocError> {
    let costs: &[u16] = match topology.interfaces.get(number) {
        Some(costs) if !costs.is_empty() => costs,
        _ => &[UNUSED_COST],
    };
    let mut interfaces = Vec::with_capacity(alloc, costs.len())?;
    for (iface, cost) in costs.iter().enumerate() {
        interfaces.push(Interface {
            transport: Family::Ipv6,
            ipv4: Some((ipv4_of(speaker, iface), 15)),
            ipv6: Some(ipv6_of(speaker, iface)),
            peers: Vec::new(alloc),
            cost: *cost,
            hello: node.hello,
        })?;
    }
    Ok(interfaces)
}
