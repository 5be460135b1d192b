//! The links of a file.

ghost use Rattle.std.specs.Prelude.{◌≡◌, ◌<◌, ◌≤◌, ◌++◌, ◌∷◌, [], None, All, IfOk, OnOk, length, vec_len};
ghost use Rattle.babel_topology.specs.Names.{link_between};
ghost use Rattle.babel_topology.specs.Files.{IsBetween, HasDistinctLinks, HasSameNodes, HasCostAt, HasItsCost, KeepsEach};

use crate::file::interfaces::{Sharing, attach};
use crate::file::tables::{number_at, text_at, time_at};
use crate::{End, Link, MAX_INTERFACES, Node, TopologyFault, find_node, link_between};
use std::alloc::Global;
use toml::{Table, Value};

/// The nominal cost of a link that names none: that of a wired link (RFC 8966, appendix B).
const DEFAULT_COST: u16 = 96;

/// Reads the links, whose interfaces are not chosen yet: T10 to T12 for the first one that has such
/// a fault.
pub(crate) fn read_links(
    alloc: Global,
    nodes: &[Node],
    tables: &[Value],
) -> Result<Vec<Link>, TopologyFault>
    ensures ends { IfOk result (λ links. All (IsBetween (length nodes.now)) links.items) }
    ensures once { IfOk result (λ links. HasDistinctLinks links.items) }
{
    let mut links = Vec::new(alloc);
    for (number, value) in tables.iter().enumerate() {
        let Value::Table(table) = value else {
            return Err(TopologyFault::Form);
        };
        let link = read_link(nodes, number, table)?;
        push_link(&mut links, link, number)?;
    }
    Ok(links)
}

/// Adds a link, which has this number.
fn push_link(links: &mut Vec<Link>, link: Link, number: usize) -> Result<(), TopologyFault>
    ensures grown { OnOk result (links.new.items ≡ links.old.items ++ link ∷ []) }
    ensures once { OnOk result (HasDistinctLinks links.old.items → HasDistinctLinks links.new.items) }
{
    check_link(number, &link, links)?;
    links.push(link)?;
    Ok(())
}

/// T12, if an earlier link is between the same nodes.
fn check_link(number: usize, link: &Link, earlier: &[Link]) -> Result<(), TopologyFault>
    ensures once { OnOk result (link_between earlier.now link.now.a.node link.now.b.node ≡ None) }
{
    if link_between(earlier, link.a.node, link.b.node).is_some() {
        return Err(TopologyFault::RepeatedLink(number));
    }
    Ok(())
}

fn read_link(nodes: &[Node], number: usize, table: &Table) -> Result<Link, TopologyFault>
    ensures ends { IfOk result (IsBetween (length nodes.now)) }
{
    let a = read_end(nodes, number, text_at(table, "a"))?;
    let b = read_end(nodes, number, text_at(table, "b"))?;
    if a.node == b.node {
        return Err(TopologyFault::SameEnds(number));
    }
    Ok(Link {
        a,
        b,
        delay: time_at(table, "delay").unwrap_or(0),
        loss: number_at(table, "loss").unwrap_or(0),
        cost: number_at(table, "cost").unwrap_or(DEFAULT_COST),
    })
}

fn read_end(nodes: &[Node], number: usize, name: Option<&str>) -> Result<End, TopologyFault>
    ensures node { IfOk result (λ end. end.node < length nodes.now) }
{
    match find_node(nodes, name.unwrap_or("")) {
        Some(node) => Ok(End { node, iface: 0 }),
        None => Err(TopologyFault::UnknownEnd(number)),
    }
}

/// Chooses the interfaces of the links: T13 for the first link that has none at a node.
pub(crate) fn choose_interfaces(
    alloc: Global,
    node_count: usize,
    links: &mut [Link],
) -> Result<Vec<Vec<u16>>, TopologyFault>
    ensures count { IfOk result (λ interfaces. vec_len interfaces ≡ node_count) }
    ensures few { IfOk result (λ interfaces. All (λ costs. vec_len costs ≤ 8) interfaces.items) }
    ensures nodes { OnOk result (HasSameNodes links.old links.new) }
    ensures costs { IfOk result (λ interfaces. All (HasItsCost interfaces.items) links.new) }
{
    let mut interfaces = no_interfaces(alloc, node_count)?;
    for number in 0..links.len() {
        let link = links[number];
        let a = choose_interface(&mut interfaces, links, number, link.a.node, link.cost)?;
        let b = choose_interface(&mut interfaces, links, number, link.b.node, link.cost)?;
        links[number] = Link { a, b, ..link };
    }
    Ok(interfaces)
}

/// So many nodes without interfaces.
fn no_interfaces(alloc: Global, node_count: usize) -> Result<Vec<Vec<u16>>, TopologyFault>
    ensures count { IfOk result (λ interfaces. vec_len interfaces ≡ node_count) }
    ensures none { IfOk result (λ interfaces. All (λ costs. vec_len costs ≡ 0) interfaces.items) }
{
    let mut interfaces = Vec::new(alloc);
    for _number in 0..node_count {
        interfaces.push(Vec::new(alloc))?;
    }
    Ok(interfaces)
}

fn choose_interface(
    interfaces: &mut Vec<Vec<u16>>,
    links: &[Link],
    number: usize,
    node: usize,
    cost: u16,
) -> Result<End, TopologyFault>
    ensures node { IfOk result (λ end. end.node ≡ node) }
    ensures count { vec_len interfaces.new ≡ vec_len interfaces.old }
    ensures kept { KeepsEach interfaces.old.items interfaces.new.items }
    ensures cost { IfOk result (HasCostAt interfaces.new.items cost) }
    ensures few { All (λ costs. vec_len costs ≤ 8) interfaces.old.items → All (λ costs. vec_len costs ≤ 8) interfaces.new.items }
{
    let sharing = sharing_at(links, node);
    let Some(costs) = interfaces.get_mut(node) else {
        return Err(TopologyFault::UnknownEnd(number));
    };
    match attach(costs, cost, sharing)? {
        Some(iface) => Ok(End { node, iface }),
        None => Err(TopologyFault::TooManyCosts(number)),
    }
}

/// Whether the links of the node share interfaces: if there are more links than interfaces.
fn sharing_at(links: &[Link], node: usize) -> Sharing {
    if degree(links, node) > MAX_INTERFACES {
        Sharing::ByCost
    } else {
        Sharing::Own
    }
}

/// How many links the node has.
fn degree(links: &[Link], node: usize) -> usize {
    let mut count = 0usize;
    for link in links {
        if link.a.node == node || link.b.node == node {
            count = count.saturating_add(1);
        }
    }
    count
}
