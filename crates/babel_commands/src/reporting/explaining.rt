//! `babel explain CONFIG LOG PREFIX`.

use crate::faults::{Fault, end};
use crate::reporting::config_in;
use crate::showing::{READ_LEN, Status};
use babel_config::FileFault;
use babel_text::{LineFault, parse_prefix};
use std::alloc::Global;
use std::io::{BufReader, Read, Write};

/// Writes the routes of the prefix after the log, and why each is used or not. A fault of the
/// prefix, the configuration or the log is written to `err`.
pub fn explain<C: Read + Drop, L: Read + Drop, W: Write, E: Write>(
    alloc: Global,
    config: C,
    log: L,
    prefix: &str,
    out: &mut W,
    err: &mut E,
) -> Status {
    end(try_explain(alloc, config, log, prefix, out), err)
}

/// The same, and the fault is returned.
pub fn try_explain<C: Read + Drop, L: Read + Drop, W: Write>(
    alloc: Global,
    config: C,
    log: L,
    prefix: &str,
    out: &mut W,
) -> Result<(), Fault> {
    let Some(prefix) = parse_prefix(prefix) else {
        return Err(Fault::File(FileFault::Text));
    };
    let config = config_in(alloc, config)?;
    let mut log = BufReader::with_capacity(alloc, READ_LEN, log).map_err(LineFault::of_reading)?;
    babel_replay::explain(alloc, config, &mut log, prefix, out)?;
    Ok(())
}
