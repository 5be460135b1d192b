//! The sentence on a line of a log, and why `explain` shows no route.

use babel_arguments::{argument, octets_of, open_again, until_of};
use babel_commands::{Absence, Log, absence_of};
use babel_config::read_config;
use babel_line_details::{ReportCode, explain_log_line};
use babel_text::{LineFault, MAX_LINE_LEN, parse_prefix};
use babel_value::Prefix;
use clap::ArgMatches;
use std::alloc::Global;
use std::fmt;
use std::fs::Files;
use std::io::{self, BufRead, BufReader, Read, Write};

/// How many octets of a log are read at a time.
const READ_LEN: usize = 65_536;

/// A prefix, and up to which moment the log is read, in centiseconds. Without one it is read whole.
#[derive(Clone, Copy)]
struct Asked {
    prefix: Prefix,
    until: Option<u64>,
}

/// The end of a sentence on the log, which may have more after that moment.
#[derive(Clone, Copy)]
struct Until(Option<u64>);

impl fmt::Display for Until {
    fn fmt<W: fmt::Write>(&self, f: &mut fmt::Formatter<W>) -> fmt::Result {
        match self.0 {
            Some(until) => write!(f, " until {until}"),
            None => Ok(()),
        }
    }
}

/// Writes why `explain` shows no route.
pub fn explain_absence<F: AllocGlobal + Files, E: Write>(
    rt: &F,
    arguments: &ArgMatches<'_>,
    err: &mut E,
) -> io::Result<()> {
    let Some(prefix) = parse_prefix(argument(arguments, "prefix")) else {
        return Ok(());
    };
    let until = until_of(arguments);
    explain_announced(rt, argument(arguments, "config"), &prefix, err)?;
    let name = argument(arguments, "log");
    match absence_in(rt, name, until, &prefix) {
        Some(absence) => write_absence(name, absence, Asked { prefix, until }, err),
        None => writeln!(
            err,
            "{name}: there is no route of {prefix}; only a file can be read again to find out why"
        ),
    }
}

/// Writes it if the router announces the prefix: its own prefix needs no route.
fn explain_announced<F: AllocGlobal + Files, E: Write>(
    rt: &F,
    name: &str,
    prefix: &Prefix,
    err: &mut E,
) -> io::Result<()> {
    if is_announced(rt, name, prefix) {
        writeln!(err, "{name}: this router announces {prefix} itself")?;
    }
    Ok(())
}

/// Whether the prefix is in the configuration, if that can be read again.
fn is_announced<F: AllocGlobal + Files>(rt: &F, name: &str, prefix: &Prefix) -> bool {
    let Some(octets) = octets_of(rt.alloc(), rt, name) else {
        return false;
    };
    match read_config(rt.alloc(), octets.as_slice()) {
        Ok(config) => has_prefix(config.prefixes.as_slice(), prefix),
        Err(_) => false,
    }
}

fn has_prefix(prefixes: &[Prefix], prefix: &Prefix) -> bool {
    for one in prefixes {
        if *one == *prefix {
            return true;
        }
    }
    false
}

/// Why the prefix has no route, if the log can be read again.
fn absence_in<F: AllocGlobal + Files>(
    rt: &F,
    name: &str,
    until: Option<u64>,
    prefix: &Prefix,
) -> Option<Absence> {
    let log = open_again(rt, name)?;
    let log = Log::new(rt.alloc(), log, until).ok()?;
    absence_of(rt.alloc(), log, prefix).ok()
}

fn write_absence<E: Write>(
    name: &str,
    absence: Absence,
    asked: Asked,
    err: &mut E,
) -> io::Result<()> {
    let prefix = asked.prefix;
    let until = Until(asked.until);
    match absence {
        Absence::NeverNamed => writeln!(err, "{name}: no Update names {prefix}{until}"),
        Absence::OnlyIgnored(line, reason, count) => {
            writeln!(
                err,
                "{name}:{line}: {prefix} is in ignored Updates alone, {count} in all{until}, \
                 the first for {reason}"
            )?;
            writeln!(err, "{name}:{line}: {}", ReportCode::from(reason))
        }
        Absence::OnlyRetracted(line) => writeln!(
            err,
            "{name}:{line}: {prefix} was retracted, and never advertised{until}"
        ),
        Absence::NoRouteLeft(line) => writeln!(
            err,
            "{name}:{line}: the last Update of {prefix}{until}; no route of it is left, \
             as babel replay shows"
        ),
    }
}

/// L1 to L8 of a line of a log.
pub(crate) fn explain_line<F: AllocGlobal + Files, E: Write>(
    rt: &F,
    arguments: &ArgMatches<'_>,
    number: u64,
    fault: LineFault,
    err: &mut E,
) -> io::Result<()> {
    let name = argument(arguments, "log");
    match log_line(rt, name, number) {
        Some(line) => {
            let detail = explain_log_line(line.as_slice(), fault);
            writeln!(err, "{name}:{number}{detail}")
        }
        None => writeln!(err, "{name}:{number}: {fault}"),
    }
}

/// The line of this number of a log, from 1 on, if it can be read again.
fn log_line<F: AllocGlobal + Files>(rt: &F, path: &str, number: u64) -> Option<Vec<u8>> {
    line_of(rt.alloc(), open_again(rt, path)?, number).ok()
}

fn line_of<R: Read + Drop>(alloc: Global, file: R, number: u64) -> io::Result<Vec<u8>> {
    let mut log = BufReader::with_capacity(alloc, READ_LEN, file)?;
    let mut line = Vec::new(alloc);
    for _ in 0..number {
        line.clear();
        let most = MAX_LINE_LEN as u64 + 1;
        let mut front = Read::take(&mut log, most);
        front.read_until(b'\n', &mut line)?;
    }
    if line.last() == Some(&b'\n') {
        let _ = line.pop();
    }
    Ok(line)
}
