//! `babel check CONFIG --restore FILE`.

use crate::faults::{Fault, end};
use crate::reporting::config_in;
use crate::showing::Status;
use babel_snapshot::SavedState;
use babel_snapshot_file::read_snapshot;
use babel_speaker::Speaker;
use babel_state::Config;
use babel_text::LineFault;
use std::alloc::Global;
use std::io::{Read, Write};

/// The moment at which a speaker is restored.
const MOMENT: u64 = 0;

/// Writes `ok` if a speaker can be made of the configuration in the file. With the file of a
/// snapshot, the speaker is restored from it, and what it restored is written too:
/// `ok <n> sources seqno <n> raises <n>`. Else the code is written to `err`.
pub fn check<C: Read + Drop, S: Read + Drop, W: Write, E: Write>(
    alloc: Global,
    config: C,
    snapshot: Option<S>,
    out: &mut W,
    err: &mut E,
) -> Status {
    end(try_check(alloc, config, snapshot, out), err)
}

/// The same, and the fault is returned.
pub fn try_check<C: Read + Drop, S: Read + Drop, W: Write>(
    alloc: Global,
    config: C,
    snapshot: Option<S>,
    out: &mut W,
) -> Result<(), Fault> {
    let config = checked_config(alloc, config)?;
    match snapshot {
        Some(file) => check_snapshot(alloc, config, file, out),
        None => Ok(write_ok(out)?),
    }
}

/// Reads a configuration of which a speaker can be made.
fn checked_config<C: Read + Drop>(alloc: Global, config: C) -> Result<Config, Fault> {
    let config = config_in(alloc, config)?;
    match config.check() {
        Ok(()) => Ok(config),
        Err(fault) => Err(Fault::Config(fault)),
    }
}

fn check_snapshot<S: Read + Drop, W: Write>(
    alloc: Global,
    config: Config,
    snapshot: S,
    out: &mut W,
) -> Result<(), Fault> {
    let octets = read_snapshot(alloc, snapshot)?;
    check_octets(alloc, config, octets.as_slice(), out)
}

/// Restores a speaker, and writes what it restored.
fn check_octets<W: Write>(
    alloc: Global,
    config: Config,
    octets: &[u8],
    out: &mut W,
) -> Result<(), Fault> {
    let router_id = config.router_id;
    Speaker::restore(alloc, config, MOMENT, octets)?;
    let saved = SavedState::read(&router_id, octets)?;
    Ok(write_restored(&saved, out)?)
}

fn write_ok<W: Write>(out: &mut W) -> Result<(), LineFault> {
    writeln!(out, "ok").map_err(LineFault::of_writing)?;
    out.flush().map_err(LineFault::of_writing)
}

fn write_restored<W: Write>(saved: &SavedState<'_>, out: &mut W) -> Result<(), LineFault> {
    let sources = saved.len();
    let seqno = saved.seqno();
    let raises = saved.raises();
    writeln!(out, "ok {sources} sources seqno {seqno} raises {raises}").map_err(
        LineFault::of_writing,
    )?;
    out.flush().map_err(LineFault::of_writing)
}
