//! The sentence on the file of a configuration or a scenario, and its warnings.

use babel_arguments::{CommandName, argument, octets_of};
use babel_commands::{EventFault, Fault};
use babel_file_details::{
    FileKind, FileText, explain_config, explain_event, explain_file, explain_hearing,
    explain_network, explain_transport, write_warnings,
};
use clap::ArgMatches;
use std::alloc::Global;
use std::fs::Files;
use std::io::{self, Write};

/// Writes what can't work of a configuration that is accepted.
pub fn warn<F: AllocGlobal + Files, E: Write>(
    rt: &F,
    arguments: &ArgMatches<'_>,
    err: &mut E,
) -> io::Result<()> {
    let name = argument(arguments, "config");
    match octets_of(rt.alloc(), rt, name) {
        Some(octets) => {
            let octets = octets.as_slice();
            write_warnings(rt.alloc(), FileText { name, octets }, err)
        }
        None => Ok(()),
    }
}

/// The argument that names the file of a configuration or a scenario.
pub(crate) fn file_name<'m>(command: CommandName, arguments: &'m ArgMatches<'_>) -> &'m str {
    match command {
        CommandName::Net => argument(arguments, "scenario"),
        _ => argument(arguments, "config"),
    }
}

/// A fault of what is in the file of a configuration or a scenario.
pub(crate) fn explain_text<F: AllocGlobal + Files, E: Write>(
    rt: &F,
    command: CommandName,
    arguments: &ArgMatches<'_>,
    fault: Fault,
    err: &mut E,
) -> io::Result<()> {
    let name = file_name(command, arguments);
    let kind = match command {
        CommandName::Net => FileKind::Scenario,
        _ => FileKind::Config,
    };
    match octets_of(rt.alloc(), rt, name) {
        Some(octets) => {
            let octets = octets.as_slice();
            explain_octets(rt.alloc(), FileText { name, octets }, kind, fault, err)
        }
        None => write_phrase(name, fault, err),
    }
}

/// What is wrong with the octets of the file.
fn explain_octets<E: Write>(
    alloc: Global,
    file: FileText<'_>,
    kind: FileKind,
    fault: Fault,
    err: &mut E,
) -> io::Result<()> {
    match fault {
        Fault::File(fault) => explain_file(alloc, file, kind, fault, err),
        Fault::Config(fault) => explain_config(alloc, file, fault, err),
        Fault::Net(fault) => explain_network(alloc, file, fault, err),
        Fault::Event(number, EventFault::Ours(fault)) => {
            explain_event(alloc, file, number, fault, err)
        }
        Fault::Event(number, EventFault::Heard(fault)) => {
            explain_hearing(alloc, file, number, fault, err)
        }
        Fault::Transport => explain_transport(alloc, file, err),
        _ => Ok(()),
    }
}

/// What a fault means, if nothing is known of the file.
fn write_phrase<E: Write>(name: &str, fault: Fault, err: &mut E) -> io::Result<()> {
    match fault {
        Fault::File(fault) => writeln!(err, "{name}: {fault}"),
        Fault::Config(fault) => writeln!(err, "{name}: {fault}"),
        Fault::Net(fault) => writeln!(err, "{name}: {fault}"),
        Fault::Event(number, EventFault::Ours(fault)) => {
            writeln!(err, "{name}: event {number}: {fault}")
        }
        Fault::Event(number, EventFault::Heard(fault)) => {
            writeln!(err, "{name}: event {number}: {fault}")
        }
        Fault::Transport => writeln!(err, "{name}: an interface has IPv6 transport"),
        _ => Ok(()),
    }
}
