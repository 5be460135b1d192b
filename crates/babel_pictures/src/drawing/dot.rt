//! The file of a network for Graphviz.

use crate::drawing::pictures::{DrawnLink, DrawnNode, Hop, LinkState, Picture};
use crate::drawing::texts::Quoted;
use std::io::{self, Write};

/// Writes the network of a picture in DOT. A link has no direction, and a next hop has one.
pub fn write_dot<W: Write>(picture: &Picture, out: &mut W) -> io::Result<()> {
    let title = Quoted(&picture.title);
    writeln!(
        out,
        "digraph {title} {{\n  \
layout=neato; overlap=false; label={title};\n  \
node [shape=box, style=rounded];"
    )?;
    for (number, node) in picture.nodes.iter().enumerate() {
        write_node(number, node, out)?;
    }
    for link in &picture.links {
        write_link(picture, link, out)?;
    }
    writeln!(out, "}}")
}

fn write_node<W: Write>(number: usize, node: &DrawnNode, out: &mut W) -> io::Result<()> {
    let name = Quoted(&node.name);
    let look = match node.hop {
        Hop::Announces => ", style=\"rounded,filled\", fillcolor=lightblue",
        Hop::Via(_) => "",
        Hop::Unreachable => ", color=red",
        Hop::Down => ", style=\"rounded,dashed\", color=gray, fontcolor=gray",
    };
    writeln!(out, "  n{number} [label={name}{look}];")
}

/// Writes a link: from a node to its next hop, if it is one.
fn write_link<W: Write>(picture: &Picture, link: &DrawnLink, out: &mut W) -> io::Result<()> {
    let forward = picture.uses(link.a, link.b);
    let back = picture.uses(link.b, link.a);
    let direction = match (forward, back) {
        (true, true) => "dir=both, color=blue",
        (true, false) => "dir=forward, color=blue",
        (false, true) => "dir=back, color=blue",
        (false, false) => "dir=none, color=gray",
    };
    let look = match link.state {
        LinkState::Up => "",
        LinkState::Lossy => ", style=dotted",
        LinkState::Cut => ", style=dashed",
    };
    let (a, b) = (link.a, link.b);
    match link.cost {
        Some(cost) => writeln!(out, "  n{a} -> n{b} [{direction}{look}, label=\"{cost}\"];"),
        None => writeln!(out, "  n{a} -> n{b} [{direction}{look}];"),
    }
}
