//! The sentence on each fault of a command.

use crate::configs::{explain_text, file_name};
use crate::logs::explain_line;
use crate::snapshots::{explain_restore, explain_snapshot_file};
use babel_arguments::{CommandName, argument, failure_of};
use babel_commands::Fault;
use babel_config::{FileFault, MAX_FILE_LEN};
use babel_line_details::{Excerpt, LineProblem, explain_hex};
use babel_text::{LineFault, parse_prefix};
use clap::ArgMatches;
use std::fs::Files;
use std::io::{self, Write};

/// Writes what is wrong, and where, after the fault's code.
pub fn explain_fault<F: AllocGlobal + Files, E: Write>(
    rt: &F,
    command: CommandName,
    arguments: &ArgMatches<'_>,
    fault: Fault,
    err: &mut E,
) -> io::Result<()> {
    match fault {
        Fault::File(FileFault::Unreadable) => explain_files(rt, command, arguments, err),
        Fault::File(FileFault::Text) if has_bad_prefix(arguments) => {
            explain_prefix(command, argument(arguments, "prefix"), err)
        }
        Fault::SnapshotFile(fault) => explain_snapshot_file(rt, arguments, fault, err),
        Fault::Restore(fault) => explain_restore(arguments, fault, err),
        Fault::Line(number, fault) => explain_line(rt, arguments, number, fault, err),
        Fault::Output(fault) => explain_argument(arguments, fault, err),
        Fault::Control => {
            let place = Excerpt(argument(arguments, "control"));
            writeln!(
                err,
                "--control {place} can't be made a control socket: another process listens there, \
                 or the path or port can't be used"
            )
        }
        Fault::Socket => writeln!(
            err,
            "a socket can't be made: the address of an interface is not one of this machine, \
             or the port is taken or not allowed"
        ),
        fault => explain_text(rt, command, arguments, fault, err),
    }
}

/// F5: the first file that can't be opened or read.
fn explain_files<F: Files, E: Write>(
    rt: &F,
    command: CommandName,
    arguments: &ArgMatches<'_>,
    err: &mut E,
) -> io::Result<()> {
    let name = file_name(command, arguments);
    if let Some(failure) = failure_of(rt, name, MAX_FILE_LEN) {
        return writeln!(err, "{name}: {failure}");
    }
    if let Some(log) = arguments.get_str("log") {
        if let Some(failure) = failure_of(rt, log, usize::MAX) {
            return writeln!(err, "{log}: {failure}");
        }
    }
    writeln!(err, "{name}: {}", FileFault::Unreadable)
}

/// Whether a prefix is given that isn't one.
fn has_bad_prefix(arguments: &ArgMatches<'_>) -> bool {
    match arguments.get_str("prefix") {
        Some(text) => parse_prefix(text).is_none(),
        None => false,
    }
}

/// F3 of an argument.
fn explain_prefix<E: Write>(command: CommandName, prefix: &str, err: &mut E) -> io::Result<()> {
    let name = match command {
        CommandName::Replay => "--prefix",
        _ => "PREFIX",
    };
    let prefix = Excerpt(prefix);
    writeln!(
        err,
        "{name} {prefix} is not a prefix, as 10.0.0.0/8 or 2001:db8::/32"
    )
}

/// L3 and L4 of an argument of `show`, and L8.
fn explain_argument<E: Write>(
    arguments: &ArgMatches<'_>,
    fault: LineFault,
    err: &mut E,
) -> io::Result<()> {
    match fault {
        LineFault::Address => {
            let problem = LineProblem::Address(argument(arguments, "source"));
            writeln!(err, "--source: {problem}")
        }
        LineFault::Hex => {
            let hex = argument(arguments, "hex");
            let problem = LineProblem::Hex(explain_hex(hex), hex);
            writeln!(err, "HEX: {problem}")
        }
        fault => writeln!(err, "{fault}"),
    }
}
