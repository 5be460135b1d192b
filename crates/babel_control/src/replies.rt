//! The replies to commands.

ghost use Rattle.std.specs.Prelude.{◌≡◌, ◌++◌, ℕ, List, [], OnOk};
ghost use Rattle.std.specs.String.{string_bytes};
ghost use Rattle.babel_control.specs.Commands.{monitoring_by, logging_with, shows_tables_by};
ghost use Rattle.babel_control.specs.Lines.{greeting};
ghost use Rattle.babel_control.specs.declared.clients.Access.TheVariants.{All};
ghost use Rattle.babel_control.specs.Replies.{counts_reply, keeping_reply, logging_reply, ok_line, IsReply};

use crate::clients::Monitoring;
use crate::lines::{VERSION, push_greeting, push_neighbour_expiry, push_route_expiry};
use crate::{Changes, Command, Keeping, LogSource, Logging, Tables, TurnCounts, View};
use babel_value::Prefix;
use std::alloc::{AllocError, Global};
use std::fmt::Write;

/// The greeting of a client.
pub(crate) fn push_welcome<T: Tables>(
    out: &mut String,
    view: &View<'_, T>,
) -> Result<(), AllocError>
    ensures { OnOk result ((version : List ℕ) × (string_bytes out.new ≡ string_bytes out.old ++ greeting version view.entry.now.host.now view.entry.now.router)) }
{
    push_greeting(out, VERSION, view.host, view.router)?;
    Ok(())
}

/// Adds the reply to a command. Before it, `changes` has to be up to date.
pub(crate) fn push_answer<T: Tables>(
    out: &mut String,
    command: &Command,
    view: &View<'_, T>,
    changes: &Changes,
) -> Result<(), AllocError>
    ensures { string_bytes out.old ≡ [] → OnOk result (IsReply All command.now view.entry.now changes.now (string_bytes out.new)) }
{
    match command {
        Command::Dump | Command::Monitor => {
            changes.write_all(view.devices, out)?;
            writeln!(out, "ok")
        }
        Command::Why(prefix) => push_why(out, prefix, view),
        Command::Expiries => push_expiries(out, view, changes.alloc),
        Command::Counts => {
            let neighbours = changes.neighbour_count();
            push_counts(out, view.counts, neighbours, changes.route_count())
        }
        Command::Keep => push_keeping(out, view.keeping),
        Command::Log(logging) => push_logging(out, *logging, view.log),
        Command::Nothing | Command::Unmonitor | Command::Stop => writeln!(out, "ok"),
        Command::Quit => Ok(()),
    }
}

fn push_why<T: Tables>(
    out: &mut String,
    prefix: &Prefix,
    view: &View<'_, T>,
) -> Result<(), AllocError>
    ensures { OnOk result ((lines : List ℕ) × (string_bytes out.new ≡ lines ++ ok_line)) }
{
    view.tables.push_why(prefix, out)?;
    writeln!(out, "ok")
}

fn push_expiries<T: Tables>(
    out: &mut String,
    view: &View<'_, T>,
    alloc: Global,
) -> Result<(), AllocError>
    ensures { OnOk result ((lines : List ℕ) × (string_bytes out.new ≡ lines ++ ok_line)) }
{
    let expiries = view.tables.expiries(alloc)?;
    for (peer, due) in &expiries.neighbours {
        if let Some(due) = due {
            push_neighbour_expiry(out, peer, due.saturating_sub(view.now), view.devices)?;
        }
    }
    for (prefix, peer, due) in &expiries.routes {
        let rest = due.saturating_sub(view.now);
        push_route_expiry(out, prefix, peer, rest, view.devices)?;
    }
    writeln!(out, "ok")
}

fn push_counts(
    out: &mut String,
    counts: TurnCounts,
    neighbours: usize,
    routes: usize,
) -> Result<(), AllocError>
    ensures { OnOk result (string_bytes out.new ≡ string_bytes out.old ++ counts_reply counts neighbours routes) }
{
    let TurnCounts {
        turns,
        received,
        sent,
        refused,
        faults,
    } = counts;
    writeln!(
        out,
        "counts turns {turns} received {received} sent {sent} refused {refused} faults {faults} \
        neighbours {neighbours} routes {routes}\nok"
    )
}

fn push_keeping(out: &mut String, keeping: Keeping) -> Result<(), AllocError>
    ensures { OnOk result (string_bytes out.new ≡ string_bytes out.old ++ keeping_reply keeping) }
{
    let reply = match keeping {
        Keeping::Kept => "ok",
        Keeping::Failed => "no the snapshot can't be kept",
        Keeping::Never => "no the speaker runs without --keep",
    };
    writeln!(out, "{reply}")
}

fn push_logging(out: &mut String, logging: Logging, log: LogSource) -> Result<(), AllocError>
    ensures { OnOk result (string_bytes out.new ≡ string_bytes out.old ++ logging_reply logging log) }
{
    let reply = match (logging, log) {
        (Logging::On, LogSource::Nothing) => "no this speaker has no log",
        _ => "ok",
    };
    writeln!(out, "{reply}")
}

/// Whether the reply shows the tables.
pub(crate) fn shows_tables(command: &Command) -> bool
    ensures { result ≡ shows_tables_by command.now }
{
    matches!(command, Command::Dump | Command::Monitor | Command::Counts)
}

/// Whether a client monitors after a command.
pub(crate) fn monitoring_after(command: &Command, before: Monitoring) -> Monitoring
    ensures { result ≡ monitoring_by command.now before }
{
    match command {
        Command::Monitor => Monitoring::Yes,
        Command::Unmonitor => Monitoring::No,
        _ => before,
    }
}

/// Whether a client is sent the log after a command, if there may be no log to send.
pub(crate) fn logging_after(log: LogSource, command: &Command, before: Logging) -> Logging
    ensures { result ≡ logging_with log command.now before }
{
    match (log, command) {
        (LogSource::Speaker, Command::Log(logging)) => *logging,
        _ => before,
    }
}
