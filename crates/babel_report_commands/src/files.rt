//! The commands that read files: `check`, `replay`, `explain` and `net`.

use crate::datagrams::details_of;
use babel_arguments::{argument, open_config, open_snapshot, until_of};
use babel_commands::{
    Details, EventLines, Fault, Log, SelectedLog, try_check, try_explain, try_net, try_replay,
    try_replay_selected,
};
use babel_config::FileFault;
use babel_json::LineFilter;
use babel_text::{LineFault, parse_prefix};
use babel_value::Prefix;
use clap::ArgMatches;
use std::fs::{self, Files};
use std::io::{IsTerminal, Write};

/// Checks the configuration, and the snapshot if one is named.
pub fn run_check<F: AllocGlobal + Files, W: Write>(
    rt: &F,
    arguments: &ArgMatches<'_>,
    out: &mut W,
) -> Result<(), Fault> {
    let config = open_config(rt, arguments)?;
    let snapshot = open_snapshot(rt, arguments)?;
    try_check(rt.alloc(), config, snapshot, out)
}

/// Replays the log. The sentences on the codes of the report are written to `err`.
pub fn run_replay<F: AllocGlobal + Files, W: Write, E: Write + IsTerminal>(
    rt: &F,
    arguments: &ArgMatches<'_>,
    out: &mut W,
    err: &mut E,
) -> Result<(), Fault> {
    let prefix = prefix_of(arguments)?;
    let filter = LineFilter::new(prefix, arguments.get_strs("only").unwrap_or(&[]));
    let details = report_details(arguments, err);
    let (config, log) = open_config_and_log(rt, arguments)?;
    if details == Details::Hidden && filter.keeps_all() {
        return try_replay(rt.alloc(), config, log, out);
    }
    let log = SelectedLog {
        name: argument(arguments, "log"),
        log,
        filter: &filter,
        details,
    };
    try_replay_selected(rt.alloc(), config, log, out, err)
}

/// Explains the routes of the prefix after the log.
pub fn run_explain<F: AllocGlobal + Files, W: Write>(
    rt: &F,
    arguments: &ArgMatches<'_>,
    out: &mut W,
) -> Result<(), Fault> {
    let prefix = argument(arguments, "prefix");
    let (config, log) = open_config_and_log(rt, arguments)?;
    try_explain(rt.alloc(), config, log, prefix, out)
}

/// Runs the network of the scenario.
pub fn run_net<F: AllocGlobal + Files, W: Write>(
    rt: &F,
    arguments: &ArgMatches<'_>,
    out: &mut W,
) -> Result<(), Fault> {
    let file = open(rt, argument(arguments, "scenario"))?;
    let lines = if arguments.get_flag("events") {
        EventLines::Shown
    } else {
        EventLines::Hidden
    };
    try_net(rt.alloc(), file, lines, out)
}

/// Opens the files of `replay` and `explain`, in the order of the arguments. The log may end early.
fn open_config_and_log<F: AllocGlobal + Files>(
    rt: &F,
    arguments: &ArgMatches<'_>,
) -> Result<(F::File, Log<F::File>), Fault> {
    let config = open_config(rt, arguments)?;
    let log = fs::open(rt, argument(arguments, "log")).map_err(FileFault::from)?;
    let log = Log::new(rt.alloc(), log, until_of(arguments)).map_err(LineFault::of_reading)?;
    Ok((config, log))
}

fn open<F: Files>(rt: &F, path: &str) -> Result<F::File, FileFault> {
    Ok(fs::open(rt, path)?)
}

/// The prefix of an option or an argument, if it is there.
fn prefix_of(arguments: &ArgMatches<'_>) -> Result<Option<Prefix>, Fault> {
    let Some(text) = arguments.get_str("prefix") else {
        return Ok(None);
    };
    match parse_prefix(text) {
        Some(prefix) => Ok(Some(prefix)),
        None => Err(Fault::File(FileFault::Text)),
    }
}

/// Whether the sentences on the codes of a report on a log are wanted.
fn report_details<E: IsTerminal>(arguments: &ArgMatches<'_>, err: &E) -> Details {
    if arguments.get_flag("json") && !arguments.get_flag("details") {
        return Details::Hidden;
    }
    details_of(arguments, err)
}
