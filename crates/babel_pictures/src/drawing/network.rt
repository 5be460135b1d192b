//! The network of an SVG: links, next hops, and a box for each node.

use crate::drawing::elements::{write_line, write_text};
use crate::drawing::numbers::{Place, greater, smaller, whole};
use crate::drawing::pictures::{DrawnLink, DrawnNode, Hop, LinkState, Picture};
use crate::drawing::places::{BOX_HEIGHT, Layout, box_width};
use crate::drawing::texts::{Escaped, Short, drawn_len};
use std::io::{self, Write};

/// Writes the network.
pub(crate) fn write_network<W: Write>(
    picture: &Picture,
    layout: &Layout,
    out: &mut W,
) -> io::Result<()> {
    for link in &picture.links {
        write_link(link, layout, out)?;
    }
    for (number, node) in picture.nodes.iter().enumerate() {
        write_hop(picture, layout, number, node.hop, out)?;
    }
    for link in &picture.links {
        write_cost(link, layout, out)?;
    }
    for (node, place) in picture.nodes.iter().zip(layout.places.iter()) {
        write_node(node, *place, out)?;
    }
    Ok(())
}

fn write_link<W: Write>(link: &DrawnLink, layout: &Layout, out: &mut W) -> io::Result<()> {
    let (Some(a), Some(b)) = (layout.places.get(link.a), layout.places.get(link.b)) else {
        return Ok(());
    };
    let class = match link.state {
        LinkState::Up => "class=\"link\"",
        LinkState::Lossy => "class=\"link lossy\"",
        LinkState::Cut => "class=\"link cut\"",
    };
    write_line(class, *a, *b, out)
}

/// Writes the cost of a link, next to its middle.
fn write_cost<W: Write>(link: &DrawnLink, layout: &Layout, out: &mut W) -> io::Result<()> {
    let (Some(a), Some(b)) = (layout.places.get(link.a), layout.places.get(link.b)) else {
        return Ok(());
    };
    let Some(cost) = link.cost else {
        return Ok(());
    };
    let middle = a.plus(*b).times(0.5);
    let at = (whole(middle.x), whole(middle.y).saturating_add(4));
    write_text("class=\"cost\" text-anchor=\"middle\"", at, &cost, out)
}

/// Writes the arrow to the next hop of a node.
fn write_hop<W: Write>(
    picture: &Picture,
    layout: &Layout,
    node: usize,
    hop: Hop,
    out: &mut W,
) -> io::Result<()> {
    let Hop::Via(next) = hop else {
        return Ok(());
    };
    let (Some(from), Some(to)) = (layout.places.get(node), layout.places.get(next)) else {
        return Ok(());
    };
    let letters = match picture.nodes.get(next) {
        Some(node) => drawn_len(&node.name),
        None => 0,
    };
    // Two nodes that send packets to each other have an arrow on each side of the link.
    let side = if picture.uses(next, node) { 4.0 } else { 0.0 };
    let (from, to) = shifted(*from, *to, side);
    let end = edge_of(from, to, box_width(letters));
    write_line("class=\"hop\" marker-end=\"url(#head)\"", from, end, out)
}

/// The same line, so many pixels to the side.
fn shifted(from: Place, to: Place, side: f64) -> (Place, Place) {
    let way = to.minus(from);
    let turned = Place::new(0.0 - way.y, way.x).times(side / way.length());
    (from.plus(turned), to.plus(turned))
}

/// Where the line to a box of this width reaches it.
fn edge_of(from: Place, to: Place, width: f64) -> Place {
    let back = from.minus(to);
    let across = greater(back.x, 0.0 - back.x);
    let down = greater(back.y, 0.0 - back.y);
    let by_width = (0.5 * width + 2.0) / greater(across, 0.01);
    let by_height = (0.5 * BOX_HEIGHT + 2.0) / greater(down, 0.01);
    to.plus(back.times(smaller(smaller(by_width, by_height), 1.0)))
}

fn write_node<W: Write>(node: &DrawnNode, place: Place, out: &mut W) -> io::Result<()> {
    let width = box_width(drawn_len(&node.name));
    let left = whole(place.x - 0.5 * width);
    let top = whole(place.y - 0.5 * BOX_HEIGHT);
    let (wide, high) = (whole(width), whole(BOX_HEIGHT));
    let (class, text) = match node.hop {
        Hop::Announces => ("box own", " class=\"in\""),
        Hop::Via(_) => ("box", ""),
        Hop::Unreachable => ("box lost", ""),
        Hop::Down => ("box down", " class=\"quiet\""),
    };
    let (x, y) = (whole(place.x), whole(place.y + 4.0));
    let (name, short) = (Escaped(&node.name), Short(&node.name));
    writeln!(
        out,
        "<g><title>{name}</title>\
<rect class=\"{class}\" x=\"{left}\" y=\"{top}\" width=\"{wide}\" \
height=\"{high}\" rx=\"12\"/>\
<text{text} text-anchor=\"middle\" x=\"{x}\" y=\"{y}\">{short}</text></g>"
    )
}
