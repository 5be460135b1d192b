//! The command `run`: a speaker on the devices of the network, over IPv6.

use crate::places::why_not_made;
use babel_arguments::{argument, explain_unreadable, failure_of, kept, octets_of, wants_details};
use babel_commands::{Status, refuse};
use babel_config::FileFault;
use babel_devices::DeviceFault;
use babel_file_details::{FileText, explain_router_file};
use babel_line_details::Excerpt;
use babel_router::{Printed, RunFault, RunWords, WordsFault, run_words};
use babel_snapshot_file::{LockFile, MAX_SNAPSHOT_LEN, SnapshotFileFault};
use clap::ArgMatches;
use std::fs::Files;
use std::io::{self, IsTerminal, Read, Write};
use std::net::Net;
use std::os::fd::AsRawFd;
use std::time::Clock;

/// The UDP port that is used if none is given (RFC 8966, section 4).
pub(crate) const DEFAULT_PORT: u16 = 6696;

/// Runs a speaker on the devices, until the input ends. Its fault is written.
pub fn run_router<F, R: Read + AsRawFd, W: Write, E: Write + IsTerminal>(
    rt: &F,
    arguments: &ArgMatches<'_>,
    input: &mut R,
    out: &mut W,
    err: &mut E,
) -> Status
where
    F: AllocGlobal + Files + Net + Clock,
    F::File: LockFile,
{
    let refused = match run_words(rt, words_of(arguments), input, out, err) {
        Ok(()) => return Status::Done,
        Err(refused) => refused,
    };
    let status = refuse_words(refused, err);
    if wants_details(arguments, err) {
        // If writing the sentence fails, the status still reports the fault.
        let _ = explain(rt, arguments, refused, err);
    }
    status
}

/// Writes the code.
fn refuse_words<E: Write>(refused: WordsFault<'_>, err: &mut E) -> Status {
    match refused {
        WordsFault::Prefix(_) | WordsFault::RouterId(_) | WordsFault::Address(_) => {
            refuse(&"F3", err)
        }
        WordsFault::OtherDevice(_) | WordsFault::Twice(_) => refuse(&"F3", err),
        WordsFault::File(fault) => refuse(&fault.code(), err),
        WordsFault::Run(fault) => refuse(&fault.code(), err),
    }
}

fn explain<F: AllocGlobal + Files, E: Write>(
    rt: &F,
    arguments: &ArgMatches<'_>,
    refused: WordsFault<'_>,
    err: &mut E,
) -> io::Result<()> {
    match refused {
        WordsFault::Prefix(text) => writeln!(
            err,
            "--announce {} is not a prefix, as 10.0.0.0/8 or 2001:db8::/32",
            Excerpt(text)
        ),
        WordsFault::RouterId(text) => writeln!(
            err,
            "--router-id {} is not 16 hexadecimal digits",
            Excerpt(text)
        ),
        WordsFault::Address(text) => writeln!(
            err,
            "--ipv4 {} is not a device with its address, as eth0=192.168.0.1/24",
            Excerpt(text)
        ),
        WordsFault::OtherDevice(text) => writeln!(
            err,
            "--ipv4 {} is the address of a device that isn't on the command line",
            Excerpt(text)
        ),
        WordsFault::Twice(name) => writeln!(err, "device {} is named twice", Excerpt(name)),
        WordsFault::File(fault) => explain_router(rt, arguments, fault, err),
        WordsFault::Run(fault) => explain_run(rt, arguments, fault, err),
    }
}

/// F1 to F5 of the file of `--config`.
fn explain_router<F: AllocGlobal + Files, E: Write>(
    rt: &F,
    arguments: &ArgMatches<'_>,
    fault: FileFault,
    err: &mut E,
) -> io::Result<()> {
    let name = argument(arguments, "config");
    if fault == FileFault::Unreadable {
        return explain_unreadable(rt, name, err);
    }
    match octets_of(rt.alloc(), rt, name) {
        Some(octets) => {
            let octets = octets.as_slice();
            explain_router_file(rt.alloc(), FileText { name, octets }, fault, err)
        }
        None => writeln!(err, "{name}: {fault}"),
    }
}

fn explain_run<F: Files, E: Write>(
    rt: &F,
    arguments: &ArgMatches<'_>,
    fault: RunFault,
    err: &mut E,
) -> io::Result<()> {
    match fault {
        RunFault::Device(number, fault) => {
            let names = arguments.get_strs("device").unwrap_or(&[]);
            let name = names.get(number).copied().unwrap_or("");
            explain_device(name, port_of(arguments), fault, err)
        }
        RunFault::Control => {
            let place = argument(arguments, "control");
            let reason = why_not_made(rt, place);
            writeln!(err, "--control {} {fault}: {reason}", Excerpt(place))
        }
        RunFault::SnapshotFile(SnapshotFileFault::Unreadable) => {
            let name = argument(arguments, "keep");
            match failure_of(rt, name, MAX_SNAPSHOT_LEN) {
                Some(failure) => writeln!(err, "{name}: {failure}"),
                None => writeln!(err, "{name}: {fault}"),
            }
        }
        RunFault::SnapshotFile(_) | RunFault::Restore(_) => {
            let name = argument(arguments, "keep");
            writeln!(err, "{name}: {fault}")
        }
        fault => writeln!(err, "{fault}"),
    }
}

/// W2 to W5.
fn explain_device<E: Write>(
    name: &str,
    port: u16,
    fault: DeviceFault,
    err: &mut E,
) -> io::Result<()> {
    let name = Excerpt(name);
    match fault {
        DeviceFault::Socket => writeln!(
            err,
            "device {name} can't be bound to UDP port {port}: another program may have it, \
             as another Babel daemon; --port names another one"
        ),
        fault => writeln!(err, "device {name} {fault}"),
    }
}

/// The UDP port.
fn port_of(arguments: &ArgMatches<'_>) -> u16 {
    arguments.get_one::<u16>("port").unwrap_or(DEFAULT_PORT)
}

/// The words of the arguments.
fn words_of<'m>(arguments: &'m ArgMatches<'_>) -> RunWords<'m> {
    let keep = kept(arguments);
    RunWords {
        devices: arguments.get_strs("device").unwrap_or(&[]),
        router_id: arguments.get_str("router-id"),
        announce: arguments.get_strs("announce").unwrap_or(&[]),
        ipv4: arguments.get_strs("ipv4").unwrap_or(&[]),
        cost: arguments.get_one::<u16>("cost"),
        hello: arguments.get_one::<u16>("hello"),
        config: arguments.get_str("config"),
        port: port_of(arguments),
        turns: arguments.get_one::<u64>("turns").unwrap_or(u64::MAX),
        keep,
        control: arguments.get_str("control"),
        routes: printed(arguments, "routes"),
        commands: printed(arguments, "ip"),
    }
}

/// Whether the flag asks for it.
fn printed(arguments: &ArgMatches<'_>, flag: &str) -> Printed {
    if arguments.get_flag(flag) {
        Printed::Yes
    } else {
        Printed::No
    }
}
