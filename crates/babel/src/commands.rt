//! The program, and which of its commands the command line names.

use crate::help;
use babel_arguments::{CommandName, Program, Subcommand};
use babel_control::VERSION;
use babel_report_commands::{CHECK, EXPLAIN, NET, REPLAY, SHOW};
use babel_router_commands::{ASK, RUN, SPEAK};
use babel_topology_commands::{SIMULATE, TOPOLOGY};
use clap::ArgMatches;

/// The commands, in the order of the help. Each comes from a function of its own: the texts of all
/// of them in one are more than the prover takes.
pub(crate) fn subcommands() -> [Subcommand; 10] {
    [
        show(),
        check(),
        replay(),
        explain(),
        net(),
        simulate(),
        speak(),
        run(),
        ask(),
        topology(),
    ]
}

fn show() -> Subcommand {
    SHOW
}

fn check() -> Subcommand {
    CHECK
}

fn replay() -> Subcommand {
    REPLAY
}

fn explain() -> Subcommand {
    EXPLAIN
}

fn net() -> Subcommand {
    NET
}

fn simulate() -> Subcommand {
    SIMULATE
}

fn speak() -> Subcommand {
    SPEAK
}

fn run() -> Subcommand {
    RUN
}

fn ask() -> Subcommand {
    ASK
}

fn topology() -> Subcommand {
    TOPOLOGY
}

/// The program with its commands.
pub(crate) fn program_of(subcommands: &[Subcommand]) -> Program<'_> {
    Program {
        name: "babel",
        version: VERSION,
        about: "Shows what Babel (RFC 8966) datagrams mean, and what a speaker makes of them",
        after_help: help::PROGRAM,
        subcommands,
    }
}

/// A command, and the arguments that it has on the command line.
#[derive(Clone, Copy)]
pub(crate) struct Invocation<'m, 'a> {
    pub(crate) command: CommandName,
    pub(crate) arguments: &'m ArgMatches<'a>,
}

/// The command that the command line names.
pub(crate) fn invocation_of<'m, 'a>(
    subcommands: &[Subcommand],
    matches: &'m ArgMatches<'a>,
) -> Option<Invocation<'m, 'a>> {
    let (name, arguments) = matches.subcommand()?;
    for subcommand in subcommands {
        if subcommand.name == name {
            return Some(Invocation {
                command: subcommand.command,
                arguments,
            });
        }
    }
    None
}
