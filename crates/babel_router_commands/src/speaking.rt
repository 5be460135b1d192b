//! The command `speak`: the speaker of a configuration, over IPv4.

use crate::routing::DEFAULT_PORT;
use babel_arguments::{kept, open_config, open_snapshot};
use babel_commands::Fault;
use babel_config::{FileFault, read_config, read_file};
use babel_control::{ControlPlace, parse_place};
use babel_router::{KeptOptions, SpeakOptions, speak, speak_kept};
use babel_snapshot_file::LockFile;
use babel_state::Config;
use clap::ArgMatches;
use raibenku::SpeakFault;
use std::alloc::Global;
use std::fs::Files;
use std::io::{Read, Write};
use std::net::Net;
use std::time::Clock;

/// Reads the configuration, restores the speaker, and speaks.
pub fn run_speak<F: AllocGlobal + Files + Net + Clock, W: Write, E: Write>(
    rt: &F,
    arguments: &ArgMatches<'_>,
    out: &mut W,
    err: &mut E,
) -> Result<(), Fault>
where
    F::File: LockFile,
{
    if kept(arguments).is_some() || arguments.get_str("control").is_some() {
        return run_kept(rt, arguments, out, err);
    }
    run_saved(rt, arguments, out)
}

/// A speaker whose snapshot is kept all the time, or that can be asked.
fn run_kept<F: AllocGlobal + Files + Net + Clock, W: Write, E: Write>(
    rt: &F,
    arguments: &ArgMatches<'_>,
    out: &mut W,
    err: &mut E,
) -> Result<(), Fault>
where
    F::File: LockFile,
{
    let config = config_of(rt, arguments)?;
    let options = kept_options(arguments)?;
    speak_kept(rt, config, options, out, err).map_err(fault_of)
}

fn kept_options<'m>(arguments: &'m ArgMatches<'_>) -> Result<KeptOptions<'m>, Fault> {
    Ok(KeptOptions {
        turns: arguments.get_one::<u32>("turns").unwrap_or(1),
        port: arguments.get_one::<u16>("port").unwrap_or(DEFAULT_PORT),
        routes: arguments.get_flag("routes"),
        keep: kept(arguments),
        control: control_of(arguments)?,
    })
}

/// Where the control socket is, if there is to be one.
fn control_of<'m>(arguments: &'m ArgMatches<'_>) -> Result<Option<ControlPlace<'m>>, Fault> {
    match arguments.get_str("control") {
        Some(text) => match parse_place(text) {
            Some(place) => Ok(Some(place)),
            None => Err(Fault::Control),
        },
        None => Ok(None),
    }
}

/// A speaker whose snapshot is saved at the end, if at all.
fn run_saved<F: AllocGlobal + Files + Net + Clock, W: Write>(
    rt: &F,
    arguments: &ArgMatches<'_>,
    out: &mut W,
) -> Result<(), Fault> {
    let file = open_config(rt, arguments)?;
    let snapshot = open_snapshot(rt, arguments)?;
    let config = config_in(rt.alloc(), file)?;
    let options = SpeakOptions {
        turns: arguments.get_one::<u32>("turns").unwrap_or(1),
        port: arguments.get_one::<u16>("port").unwrap_or(DEFAULT_PORT),
        routes: arguments.get_flag("routes"),
        save: arguments.get_str("save"),
    };
    speak(rt, config, snapshot, options, out).map_err(fault_of)
}

/// The fault of a command for that of a speaker.
fn fault_of(fault: SpeakFault) -> Fault {
    match fault {
        SpeakFault::Config(fault) => Fault::Config(fault),
        SpeakFault::Transport => Fault::Transport,
        SpeakFault::SnapshotFile(fault) => Fault::SnapshotFile(fault),
        SpeakFault::Restore(fault) => Fault::Restore(fault),
        SpeakFault::Socket => Fault::Socket,
        SpeakFault::Control => Fault::Control,
        SpeakFault::Output(fault) => Fault::Output(fault),
    }
}

/// The configuration of the file that the arguments name.
fn config_of<F: AllocGlobal + Files>(
    rt: &F,
    arguments: &ArgMatches<'_>,
) -> Result<Config, FileFault> {
    config_in(rt.alloc(), open_config(rt, arguments)?)
}

/// Reads a configuration.
fn config_in<R: Read + Drop>(alloc: Global, file: R) -> Result<Config, FileFault> {
    let octets = read_file(alloc, file)?;
    read_config(alloc, octets.as_slice())
}
