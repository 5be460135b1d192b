//! The command `topology`: a file of a network in a regular shape, or at random.

use babel_arguments::argument;
use babel_text::LineFault;
use babel_topology::MAX_NODES;
use babel_topology::shapes::{Shape, write_topology};
use clap::ArgMatches;
use std::io::Write;

/// Writes the file of the network that the arguments describe.
pub fn run_topology<W: Write>(arguments: &ArgMatches<'_>, out: &mut W) -> Result<(), LineFault> {
    let shape = shape_of(argument(arguments, "shape"));
    let nodes = nodes_of(arguments);
    let seed = arguments.get_one::<u64>("seed").unwrap_or(0);
    write_topology(out, shape, nodes, seed).map_err(LineFault::of_writing)?;
    out.flush().map_err(LineFault::of_writing)
}

fn shape_of(word: &str) -> Shape {
    match word {
        "ring" => Shape::Ring,
        "line" => Shape::Line,
        "grid" => Shape::Grid,
        "star" => Shape::Star,
        _ => Shape::Random,
    }
}

fn nodes_of(arguments: &ArgMatches<'_>) -> usize {
    match arguments.get_one::<u64>("nodes") {
        Some(nodes) => nodes.min(MAX_NODES as u64) as usize,
        None => 1,
    }
}
