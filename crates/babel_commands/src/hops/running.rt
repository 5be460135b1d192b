//! `babel net SCENARIO`.

use crate::faults::{Fault, end};
use crate::hops::doings::{Doing, EventLines, write_event};
use crate::hops::hops::Hops;
use crate::hops::networks::{EventFault, Runs, node_of, ours};
use crate::showing::Status;
use babel_config::{FileFault, Scenario, ScenarioEvent, read_file, read_scenario};
use babel_machine::Event;
use babel_mixed::MixedNetwork;
use babel_net::Network;
use babel_text::LineFault;
use std::alloc::Global;
use std::io::{Read, Write};

/// Runs the network of the scenario in the file. After each event it writes the next hops that
/// changed, and at the end how many events and datagrams there were. A refused event is the last
/// line. Else a code is written to `err`.
pub fn net<R: Read + Drop, W: Write, E: Write>(
    alloc: Global,
    scenario: R,
    out: &mut W,
    err: &mut E,
) -> Status {
    end(try_net(alloc, scenario, EventLines::Hidden, out), err)
}

/// The same, and the fault is returned. If it is asked for, there is a line for each event that
/// says what it did.
pub fn try_net<R: Read + Drop, W: Write>(
    alloc: Global,
    scenario: R,
    lines: EventLines,
    out: &mut W,
) -> Result<(), Fault> {
    let Scenario { configs, events } = scenario_in(alloc, scenario)?;
    let hops = Hops::new(alloc, configs.as_slice())?;
    let events = events.as_slice();
    if is_ours_alone(events) {
        run(Network::new(alloc, configs)?, events, lines, hops, out)
    } else {
        run(MixedNetwork::new(alloc, configs)?, events, lines, hops, out)
    }
}

/// Reads a scenario.
fn scenario_in<R: Read + Drop>(alloc: Global, scenario: R) -> Result<Scenario, FileFault> {
    let octets = read_file(alloc, scenario)?;
    read_scenario(alloc, octets.as_slice())
}

/// Whether each event is one of our nodes.
fn is_ours_alone(events: &[ScenarioEvent]) -> bool {
    for event in events {
        if ours(event).is_none() {
            return false;
        }
    }
    true
}

/// Runs the events on a new network.
fn run<N: Runs + Drop, W: Write>(
    mut network: N,
    events: &[ScenarioEvent],
    lines: EventLines,
    mut hops: Hops,
    out: &mut W,
) -> Result<(), Fault> {
    // Without the room each datagram takes its own, and is refused if there is none.
    let _ = network.reserve(count_emits(events));
    let outcome = write_events(events, lines, &mut network, &mut hops, out)?;
    out.flush().map_err(LineFault::of_writing)?;
    match outcome {
        Outcome::AllRun => Ok(()),
        Outcome::Refused(number, fault) => Err(Fault::Event(number, fault)),
    }
}

/// How many datagrams the events may send.
fn count_emits(events: &[ScenarioEvent]) -> usize {
    let mut count = 0usize;
    for event in events {
        if let ScenarioEvent::Ours(Event::Emit { .. }) = event {
            count = count.saturating_add(1);
        }
    }
    count
}

/// How the events were run.
#[derive(Clone, Copy)]
enum Outcome {
    /// Each was run.
    AllRun,
    /// The one of this number was refused.
    Refused(usize, EventFault),
}

/// Runs the events, up to the first that is refused.
fn write_events<N: Runs, W: Write>(
    events: &[ScenarioEvent],
    lines: EventLines,
    network: &mut N,
    hops: &mut Hops,
    out: &mut W,
) -> Result<Outcome, LineFault> {
    let mut datagrams = 0;
    for (number, event) in events.iter().enumerate() {
        let node = node_of(event);
        let version = network.routes_version(node);
        let emitted = match network.step(event) {
            Ok(emitted) => emitted,
            Err(fault) => {
                write_refused(number, fault, out)?;
                return Ok(Outcome::Refused(number, fault));
            }
        };
        let mut recorded = None;
        if network.sent_by(datagrams).is_some() {
            recorded = Some(datagrams);
            datagrams = datagrams.saturating_add(1);
        }
        if matches!(lines, EventLines::Shown) {
            let doing = Doing {
                number,
                node,
                recorded,
                emitted,
            };
            write_event(doing, ours(event), network, out).map_err(LineFault::of_writing)?;
        }
        if may_differ(event, version, network) {
            hops.write_changes(number, node, network, out)?;
        }
    }
    writeln!(out, "end {} events {datagrams} datagrams", events.len()).map_err(
        LineFault::of_writing,
    )?;
    Ok(Outcome::AllRun)
}

/// Whether the selected routes of the event's node may be others than when its count of their
/// changes was this. A restart makes the count again, and at its greatest value it can't grow.
fn may_differ<N: Runs>(event: &ScenarioEvent, version: Option<u64>, network: &N) -> bool {
    if let ScenarioEvent::Ours(Event::Restart { .. }) = event {
        return true;
    }
    let now = network.routes_version(node_of(event));
    now != version || now == Some(u64::MAX)
}

fn write_refused<W: Write>(number: usize, fault: EventFault, out: &mut W) -> Result<(), LineFault> {
    writeln!(out, "{number} refused {}", fault.code()).map_err(LineFault::of_writing)
}
