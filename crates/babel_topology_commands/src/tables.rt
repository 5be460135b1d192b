//! The commands as tables of their arguments.

use crate::help;
use babel_arguments::{
    Argument, CommandName, DETAILS, FLAG, OPTION, POSITIONAL, Rule, Subcommand, Takes,
};
use babel_topology::MAX_NODES;
use babel_topology::shapes::MAX_SEED;

/// The command `simulate`.
pub const SIMULATE: Subcommand = Subcommand {
    command: CommandName::Simulate,
    name: "simulate",
    about: "Runs a network of named nodes and links, and shows how its routes change",
    usage: None,
    after_help: help::SIMULATE,
    arguments: &[
        Argument {
            name: "topology",
            takes: Takes::Text("TOPOLOGY"),
            help: "The nodes, the links and what happens to them, a TOML file",
            ..POSITIONAL
        },
        Argument {
            name: "seed",
            takes: Takes::Number("N", 0, u64::MAX),
            help: "The seed of all that is random [default: that of the file]",
            ..OPTION
        },
        Argument {
            name: "seconds",
            takes: Takes::Number("N", 0, 655_350),
            help: "How long the network runs [default: the duration of the file]",
            ..OPTION
        },
        Argument {
            name: "repeated",
            takes: Takes::Number("PERCENT", 0, 100),
            help: "How many of 100 datagrams arrive twice [default: 0]",
            ..OPTION
        },
        Argument {
            name: "late",
            takes: Takes::Number("PERCENT", 0, 100),
            help: "How many of 100 datagrams arrive up to a second late [default: 0]",
            ..OPTION
        },
        Argument {
            name: "memory",
            takes: Takes::Number("MB", 0, 1_000_000),
            help: "How much memory the record of the datagrams may take [default: 1024]",
            ..OPTION
        },
        Argument {
            name: "prefix",
            takes: Takes::Text("PREFIX"),
            help: "Shows the routes to this prefix alone, as 10.0.0.0/8",
            ..OPTION
        },
        Argument {
            name: "scenario",
            takes: Takes::Text("FILE"),
            help: "Writes the events as a scenario, which babel net replays",
            ..OPTION
        },
        Argument {
            name: "json",
            help: "Writes a JSON object a line (docs/JSON.md)",
            ..FLAG
        },
        DETAILS,
        Argument {
            name: "svg",
            takes: Takes::Text("FILE"),
            help: "Draws the network, its next hops to a prefix and what they were over time",
            ..OPTION
        },
        Argument {
            name: "dot",
            takes: Takes::Text("FILE"),
            help: "Writes the network and its next hops for Graphviz",
            ..OPTION
        },
        Argument {
            name: "at",
            takes: Takes::Text("TIME"),
            help: "The moment of the picture, as \"60 s\" [default: the end]",
            ..OPTION
        },
    ],
};

/// The shapes, as they are written.
const SHAPES: [&str; 5] = ["ring", "line", "grid", "star", "random"];

/// The command `topology`.
pub const TOPOLOGY: Subcommand = Subcommand {
    command: CommandName::Topology,
    name: "topology",
    about: "Writes a network of named nodes and links in a regular shape, or at random",
    usage: None,
    after_help: help::TOPOLOGY,
    arguments: &[
        Argument {
            name: "shape",
            takes: Takes::Word("SHAPE", &SHAPES),
            help: "ring, line, grid, star or random",
            ..POSITIONAL
        },
        Argument {
            name: "nodes",
            takes: Takes::Number("N", 1, MAX_NODES as u64),
            rules: &[Rule::Required],
            help: "How many nodes it has, 1 to 4096",
            ..OPTION
        },
        Argument {
            name: "seed",
            takes: Takes::Number("S", 0, MAX_SEED),
            help: "The seed of the links at random, which is written too [default: 0]",
            ..OPTION
        },
        DETAILS,
    ],
};
