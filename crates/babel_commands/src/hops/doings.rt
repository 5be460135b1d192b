//! What the events of a scenario did, as lines.

use crate::hops::networks::Runs;
use babel_machine::Event;
use babel_net::Emitted;
use std::io::{self, Write};

/// Whether what each event did is written.
#[derive(Clone, Copy)]
pub enum EventLines {
    /// It isn't.
    Hidden,
    /// A line for each event.
    Shown,
}

/// An event that was run.
#[derive(Clone, Copy)]
pub(crate) struct Doing {
    /// The number of the event.
    pub(crate) number: usize,
    /// Its node.
    pub(crate) node: usize,
    /// The datagram that it recorded, if its number is known.
    pub(crate) recorded: Option<usize>,
    /// Where that goes, if it is known.
    pub(crate) emitted: Option<Emitted>,
}

/// Writes what an event of our nodes did.
pub(crate) fn write_event<N: Runs, W: Write>(
    doing: Doing,
    event: Option<&Event>,
    network: &N,
    out: &mut W,
) -> io::Result<()> {
    let number = doing.number;
    let node = doing.node;
    let word = word_of(event);
    write!(out, "{number} did {word} {node}")?;
    match event {
        Some(Event::Emit { .. }) => write_emitted(doing, network, out)?,
        Some(Event::Deliver { datagram, .. }) => {
            let (from, octets) = network.sent_by(*datagram).unwrap_or((0, 0));
            write!(out, " datagram {datagram} octets {octets} from {from}")?;
        }
        _ => {}
    }
    writeln!(out)
}

/// Writes the datagram that was recorded: its number, its length and where it goes.
fn write_emitted<N: Runs, W: Write>(doing: Doing, network: &N, out: &mut W) -> io::Result<()> {
    let Some(datagram) = doing.recorded else {
        return write!(out, " nothing");
    };
    let (_, octets) = network.sent_by(datagram).unwrap_or((0, 0));
    write!(out, " datagram {datagram} octets {octets}")?;
    let Some(emitted) = doing.emitted else {
        return Ok(());
    };
    let iface = emitted.target.iface;
    match emitted.target.to {
        Some(to) => write!(out, " iface {iface} to {to}"),
        None => write!(out, " iface {iface} to all"),
    }
}

/// The word of an event, as in a scenario.
fn word_of(event: Option<&Event>) -> &'static str {
    match event {
        Some(Event::Tick { .. }) => "tick",
        Some(Event::Emit { .. }) => "emit",
        Some(Event::Deliver { .. }) => "deliver",
        Some(Event::SetCost { .. }) => "cost",
        Some(Event::Raise { .. }) => "raise",
        Some(Event::RequestSeqnos { .. }) => "request",
        Some(Event::LoseLinks { .. }) => "lose",
        Some(Event::GroupItems { .. }) => "group",
        Some(Event::Announce { .. }) => "announce",
        Some(Event::Withdraw { .. }) => "withdraw",
        Some(Event::Restart { .. }) => "restart",
        None => "hear",
    }
}
