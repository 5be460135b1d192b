//! `babel replay CONFIG LOG`.

use crate::faults::{Fault, end};
use crate::reporting::log_places::CountingLog;
use crate::reporting::sentences::ExplainedReport;
use crate::showing::{Details, READ_LEN, Status};
use babel_config::{FileFault, read_config, read_file};
use babel_json::{FilteredReport, LineFilter};
use babel_state::Config;
use babel_text::LineFault;
use std::alloc::Global;
use std::cell::Cell;
use std::io::{BufReader, Read, Write};

/// Writes what a speaker of the configuration makes of the log, line by line. A fault of the
/// configuration or of the log is written to `err`.
pub fn replay<C: Read + Drop, L: Read + Drop, W: Write, E: Write>(
    alloc: Global,
    config: C,
    log: L,
    out: &mut W,
    err: &mut E,
) -> Status {
    end(try_replay(alloc, config, log, out), err)
}

/// Reads a configuration.
pub(crate) fn config_in<C: Read + Drop>(alloc: Global, config: C) -> Result<Config, FileFault> {
    let octets = read_file(alloc, config)?;
    read_config(alloc, octets.as_slice())
}

/// The same, and the fault is returned.
pub fn try_replay<C: Read + Drop, L: Read + Drop, W: Write>(
    alloc: Global,
    config: C,
    log: L,
    out: &mut W,
) -> Result<(), Fault> {
    let config = config_in(alloc, config)?;
    let mut log = BufReader::with_capacity(alloc, READ_LEN, log).map_err(LineFault::of_reading)?;
    babel_replay::replay(alloc, config, &mut log, out)?;
    Ok(())
}

/// A log, and what of its report is written.
#[derive(Drop)]
pub struct SelectedLog<'a, L: Drop> {
    /// The name, with which a sentence on a line of the log begins.
    pub name: &'a str,
    /// The log.
    pub log: L,
    /// Which lines of the report are written.
    pub filter: &'a LineFilter<'a>,
    /// Whether the sentence of each code of these lines is written to `err`.
    pub details: Details,
}

/// The same for some lines of the report. With sentences, that of each code comes once, after the
/// line that has it first. The memory doesn't grow with the log.
pub fn try_replay_selected<C: Read + Drop, L: Read + Drop, W: Write, E: Write>(
    alloc: Global,
    config: C,
    log: SelectedLog<'_, L>,
    out: &mut W,
    err: &mut E,
) -> Result<(), Fault> {
    match log.details {
        Details::Hidden => {
            let SelectedLog { log, filter, .. } = log;
            try_replay(alloc, config, log, &mut FilteredReport::new(out, filter))
        }
        Details::Shown => try_replay_explained(alloc, config, log, out, err),
    }
}

fn try_replay_explained<C: Read + Drop, L: Read + Drop, W: Write, E: Write>(
    alloc: Global,
    config: C,
    log: SelectedLog<'_, L>,
    out: &mut W,
    err: &mut E,
) -> Result<(), Fault> {
    let config = config_in(alloc, config)?;
    let SelectedLog {
        name,
        log,
        filter,
        ..
    } = log;
    let log = BufReader::with_capacity(alloc, READ_LEN, log).map_err(LineFault::of_reading)?;
    let line = Cell::new(0);
    let mut log = CountingLog::new(log, &line);
    let mut out = ExplainedReport::new(out, err, name, &line);
    let mut out = FilteredReport::new(&mut out, filter);
    babel_replay::replay(alloc, config, &mut log, &mut out)?;
    Ok(())
}
