//! The shape of a network, if its links have one.

use crate::drawing::pictures::DrawnLink;
use std::alloc::{AllocError, Global};

/// The shape of a network.
#[derive(Drop)]
pub enum Form {
    /// Each node is linked to the next in this order, and the last one to the first.
    Ring(Vec<usize>),
    /// Each node is linked to the next in this order.
    Line(Vec<usize>),
    /// The nodes are in rows of this width, in the order of their numbers.
    Grid(usize),
    /// Each other node is linked to this one alone.
    Star(usize),
    /// None of these.
    Free,
}

/// The shape of a network of so many nodes.
pub fn form_of(alloc: Global, count: usize, links: &[DrawnLink]) -> Result<Form, AllocError> {
    if let Some(width) = grid_width(count, links) {
        return Ok(Form::Grid(width));
    }
    let degrees = degrees_of(alloc, count, links)?;
    form_by(alloc, &degrees, links)
}

/// The shape of a network whose nodes have so many links, if it is no grid.
fn form_by(alloc: Global, degrees: &[usize], links: &[DrawnLink]) -> Result<Form, AllocError> {
    let count = degrees.len();
    if let Some(center) = star_center(degrees, links.len()) {
        return Ok(Form::Star(center));
    }
    let mut end = None;
    for (node, degree) in degrees.iter().enumerate() {
        if *degree > 2 {
            return Ok(Form::Free);
        }
        if *degree < 2 && end.is_none() {
            end = Some(node);
        }
    }
    match end {
        Some(end) => line_from(alloc, end, count, links),
        None => ring_of(alloc, count, links),
    }
}

/// How many links each node has.
fn degrees_of(alloc: Global, count: usize, links: &[DrawnLink]) -> Result<Vec<usize>, AllocError> {
    let mut degrees = vec![in alloc; 0usize; count]?;
    for link in links {
        for node in [link.a, link.b] {
            if let Some(degree) = degrees.get_mut(node) {
                *degree = degree.saturating_add(1);
            }
        }
    }
    Ok(degrees)
}

/// The node in the middle of a star of at least four nodes.
fn star_center(degrees: &[usize], links: usize) -> Option<usize> {
    let others = degrees.len().checked_sub(1)?;
    if others < 3 || links != others {
        return None;
    }
    for (node, degree) in degrees.iter().enumerate() {
        if *degree == others {
            return Some(node);
        }
    }
    None
}

fn line_from(
    alloc: Global,
    end: usize,
    count: usize,
    links: &[DrawnLink],
) -> Result<Form, AllocError> {
    let order = walk(alloc, end, count, links)?;
    if order.len() == count {
        Ok(Form::Line(order))
    } else {
        Ok(Form::Free)
    }
}

fn ring_of(alloc: Global, count: usize, links: &[DrawnLink]) -> Result<Form, AllocError> {
    let order = walk(alloc, 0, count, links)?;
    if order.len() == count && links.len() == count {
        Ok(Form::Ring(order))
    } else {
        Ok(Form::Free)
    }
}

/// The nodes that are reached from a node, each over a link of the one before. The way ends at the
/// node that it began at.
fn walk(
    alloc: Global,
    first: usize,
    count: usize,
    links: &[DrawnLink],
) -> Result<Vec<usize>, AllocError> {
    let mut order = Vec::with_capacity(alloc, count)?;
    let mut before = first;
    let mut node = first;
    for _ in 0..count {
        order.push(node)?;
        match next_node(node, before, links) {
            Some(next) if next != first => {
                before = node;
                node = next;
            }
            _ => break,
        }
    }
    Ok(order)
}

/// A node that the node is linked to, other than the one before it.
fn next_node(node: usize, before: usize, links: &[DrawnLink]) -> Option<usize> {
    for link in links {
        if link.a == node && link.b != before {
            return Some(link.b);
        }
        if link.b == node && link.a != before {
            return Some(link.a);
        }
    }
    None
}

/// The width of the grid that the links make: each goes to the right or down, and none is missing.
fn grid_width(count: usize, links: &[DrawnLink]) -> Option<usize> {
    let width = first_step(links)?;
    let rest = count.checked_sub(width)?;
    if rest < 2 {
        return None;
    }
    for link in links {
        if !is_in_grid(link, count, width) {
            return None;
        }
    }
    // Each node but those of the first row has one above it, and each but the first of a row one on
    // its left.
    let rows = count.saturating_sub(1) / width.max(1);
    let across = count.saturating_sub(rows).saturating_sub(1);
    if links.len() == rest.saturating_add(across) {
        Some(width)
    } else {
        None
    }
}

/// How far the first link goes that isn't between neighbours of a row.
fn first_step(links: &[DrawnLink]) -> Option<usize> {
    for link in links {
        let step = link.a.abs_diff(link.b);
        if step > 1 {
            return Some(step);
        }
    }
    None
}

fn is_in_grid(link: &DrawnLink, count: usize, width: usize) -> bool {
    let low = link.a.min(link.b);
    let high = link.a.max(link.b);
    let step = high.saturating_sub(low);
    let column = high % width.max(1);
    high < count && (step == width || (step == 1 && column != 0))
}
