//! Nodes and links by their names.

ghost use Rattle.std.specs.Prelude.{◌≡◌};
ghost use Rattle.babel_text.specs.Readings.{Reads};
ghost use Rattle.babel_topology.specs.Names.{node_named, joins, link_between, link_of, IsLinkText};

use crate::topology::{Link, Node};
use crate::words::split_dash;

/// The number of the node of this name.
pub fn find_node(nodes: &[Node], name: &str) -> Option<usize>
    ensures { result ≡ node_named nodes.now name.now }
{
    for (number, node) in nodes.iter().enumerate() {
        if node.name.as_str() == name {
            return Some(number);
        }
    }
    None
}

impl Link {
    /// Whether the link is between these two nodes.
    pub(crate) fn joins(&self, a: usize, b: usize) -> bool
        ensures { result ≡ joins self.now a b }
    {
        (self.a.node == a && self.b.node == b) || (self.a.node == b && self.b.node == a)
    }
}

/// The number of the link between these two nodes.
pub fn link_between(links: &[Link], a: usize, b: usize) -> Option<usize>
    ensures { result ≡ link_between links.now a b }
{
    for (number, link) in links.iter().enumerate() {
        if link.joins(a, b) {
            return Some(number);
        }
    }
    None
}

/// The number of the link between these two nodes, if both are there.
fn link_of(links: &[Link], a: Option<usize>, b: Option<usize>) -> Option<usize>
    ensures { result ≡ link_of links.now a b }
{
    match a {
        None => None,
        Some(a) => match b {
            None => None,
            Some(b) => link_between(links, a, b),
        },
    }
}

/// The number of the link that the text names, as `a-b`. The two names may be in either order.
pub(crate) fn find_link(nodes: &[Node], links: &[Link], text: &str) -> Option<usize>
    ensures { Reads (IsLinkText nodes.now links.now) text.now result }
{
    let (a, b) = split_dash(text)?;
    let a = find_node(nodes, a);
    let b = find_node(nodes, b);
    link_of(links, a, b)
}
