//! The nodes of a file.

ghost use Rattle.std.specs.Prelude.{◌≡◌, ◌≤◌, ◌+◌, None, IfOk, OnOk, vec_len};
ghost use Rattle.std.specs.String.{string_bytes};
ghost use Rattle.babel_topology.specs.Names.{node_named};
ghost use Rattle.babel_topology.specs.Files.{HasDistinctNames};

use crate::file::tables::{list_at, restarts_at, router_id_at, text_at, time_at};
use crate::{MAX_NODES, Node, TopologyFault, find_node};
use babel_text::parse_prefix;
use babel_value::Prefix;
use std::alloc::Global;
use toml::{Table, Value};

/// The Hello interval of a node that names none, in centiseconds (RFC 8966, appendix B).
const DEFAULT_HELLO_INTERVAL: u16 = 400;

/// Reads the nodes: T6 if there are none or too many, else T7 to T9 for the first one that has such
/// a fault.
pub(crate) fn read_nodes(alloc: Global, tables: &[Value]) -> Result<Vec<Node>, TopologyFault>
    ensures some { IfOk result (λ nodes. 1 ≤ vec_len nodes) }
    ensures few { IfOk result (λ nodes. vec_len nodes ≤ 4096) }
    ensures names { IfOk result (λ nodes. HasDistinctNames nodes.items) }
{
    if tables.is_empty() || tables.len() > MAX_NODES {
        return Err(TopologyFault::NodeCount);
    }
    let mut nodes = Vec::new(alloc);
    for (number, value) in tables.iter().enumerate() {
        let Value::Table(table) = value else {
            return Err(TopologyFault::Form);
        };
        let node = read_node(alloc, number, table)?;
        push_node(&mut nodes, node, number)?;
    }
    Ok(nodes)
}

fn read_node(alloc: Global, number: usize, table: &Table) -> Result<Node, TopologyFault> {
    let name = text_at(table, "name").unwrap_or("");
    if !is_name(name) {
        return Err(TopologyFault::BadName(number));
    }
    Ok(Node {
        name: name.to_string(alloc)?,
        router_id: router_id_at(table, "router-id").unwrap_or(made_router_id(number)),
        prefixes: read_prefixes(alloc, list_at(table, "prefixes"))?,
        hello: hello_at(table),
        restarts: restarts_at(table, "restarts"),
    })
}

/// The Hello interval of a node, in centiseconds.
fn hello_at(table: &Table) -> u16 {
    match time_at(table, "hello") {
        Some(time) => u16::try_from(time).unwrap_or(DEFAULT_HELLO_INTERVAL),
        None => DEFAULT_HELLO_INTERVAL,
    }
}

/// Whether the text can be a name: it isn't empty, and has neither a blank nor a dash.
fn is_name(text: &str) -> bool {
    !text.is_empty() && !text.contains(' ') && !text.contains('-')
}

/// The router-id of the node of this number, if the file gives none.
fn made_router_id(number: usize) -> [u8; 8] {
    (number as u64).saturating_add(1).to_be_bytes()
}

/// Adds a node, which has this number.
fn push_node(nodes: &mut Vec<Node>, node: Node, number: usize) -> Result<(), TopologyFault>
    ensures count { OnOk result (vec_len nodes.new ≡ vec_len nodes.old + 1) }
    ensures names { OnOk result (HasDistinctNames nodes.old.items → HasDistinctNames nodes.new.items) }
{
    check_node(number, &node, nodes)?;
    nodes.push(node)?;
    Ok(())
}

/// T8 or T9, if an earlier node has the name or the router-id, or the router-id is reserved.
fn check_node(number: usize, node: &Node, earlier: &[Node]) -> Result<(), TopologyFault>
    ensures name { OnOk result (node_named earlier.now (string_bytes node.now.name) ≡ None) }
{
    if find_node(earlier, node.name.as_str()).is_some() {
        return Err(TopologyFault::RepeatedName(number));
    }
    let is_reserved = node.router_id == [0; 8] || node.router_id == [0xff; 8];
    if is_reserved || has_router_id(earlier, &node.router_id) {
        return Err(TopologyFault::BadRouterId(number));
    }
    Ok(())
}

fn has_router_id(nodes: &[Node], router_id: &[u8; 8]) -> bool {
    for node in nodes {
        if node.router_id == *router_id {
            return true;
        }
    }
    false
}

fn read_prefixes(alloc: Global, items: &[Value]) -> Result<Vec<Prefix>, TopologyFault> {
    let mut prefixes = Vec::new(alloc);
    for item in items {
        if let Some(prefix) = read_prefix(item) {
            prefixes.push(prefix)?;
        }
    }
    Ok(prefixes)
}

fn read_prefix(item: &Value) -> Option<Prefix> {
    parse_prefix(item.as_str()?)
}
