//! The file of a topology.

use crate::shapes::parents::{Layout, Shape};
use rand_core::utils::NextWord;
use rand_pcg::Pcg32;
use std::io::{self, Write};

/// The greatest seed: TOML has no greater number.
pub const MAX_SEED: u64 = i64::MAX as u64;

/// Writes the file of a network of this shape. Each node announces a prefix of its own. The same
/// seed gives the same file, which has the seed, or `MAX_SEED` if that is less. More than 4,096
/// nodes are written as they are asked for, and refused when the file is read.
pub fn write_topology<W: Write>(
    out: &mut W,
    shape: Shape,
    nodes: usize,
    seed: u64,
) -> io::Result<()> {
    let written = seed.min(MAX_SEED);
    writeln!(out, "duration = \"120 s\"\nseed = {written}\nnode = [")?;
    for node in 0..nodes {
        write_node(out, node)?;
    }
    writeln!(out, "]\nlink = [")?;
    write_links(out, Layout::new(shape, nodes), seed)?;
    writeln!(out, "]")
}

/// Writes a node. It announces a prefix of 256 addresses in 10.0.0.0/8.
fn write_node<W: Write>(out: &mut W, node: usize) -> io::Result<()> {
    let high = node / 256 % 256;
    let low = node % 256;
    writeln!(
        out,
        "  {{ name = \"n{node}\", prefixes = [\"10.{high}.{low}.0/24\"] }},"
    )
}

fn write_links<W: Write>(out: &mut W, layout: Layout, seed: u64) -> io::Result<()> {
    let mut random = Pcg32::new(seed, 0);
    for node in 0..layout.count {
        let words = (random.next_word(), random.next_word());
        let parents = layout.parents(node, words);
        write_link(out, parents.first, node)?;
        write_link(out, parents.second, node)?;
    }
    Ok(())
}

fn write_link<W: Write>(out: &mut W, parent: Option<usize>, node: usize) -> io::Result<()> {
    match parent {
        Some(parent) => writeln!(
            out,
            "  {{ a = \"n{parent}\", b = \"n{node}\", delay = \"10 ms\" }},"
        ),
        None => Ok(()),
    }
}
