//! What people read of a run.

use crate::outcome::{Counts, HopChange, HopKind, Phase, Quality, Route, RouteKind, Tested};
use crate::shown::{Counted, HopText, NumberOr, Seconds, Shown, StepText};
use crate::tables::{Column, Side, Table};
use babel_topology::{NextHop, Step};
use std::alloc::Global;
use std::fmt;
use std::io::{self, Write};

/// The columns of the timeline.
const TIMELINE: [Column; 4] = [
    (Side::Right, "TIME"),
    (Side::Left, "NODE"),
    (Side::Left, "PREFIX"),
    (Side::Left, "NEXT HOP"),
];

/// The columns of the phases.
const PHASES: [Column; 7] = [
    (Side::Right, "FROM"),
    (Side::Right, "SETTLED AFTER"),
    (Side::Right, "CHANGES"),
    (Side::Right, "DATAGRAMS"),
    (Side::Right, "OCTETS"),
    (Side::Left, "WAYS AT THE END"),
    (Side::Left, "WHAT HAPPENED"),
];

/// The columns of the ways that are not shortest.
const NOT_SHORTEST: [Column; 2] = [(Side::Right, "FROM"), (Side::Left, "NODES AND PREFIXES")];

/// How many ways that are not shortest have their names in a row.
const NAMED: usize = 8;

/// The columns of the routes.
const ROUTES: [Column; 6] = [
    (Side::Left, "NODE"),
    (Side::Left, "PREFIX"),
    (Side::Left, "NEXT HOP"),
    (Side::Right, "COST"),
    (Side::Right, "SHORTEST"),
    (Side::Left, "WAY"),
];

/// The columns of the counts.
const COUNTS: [Column; 7] = [
    (Side::Left, "NODE"),
    (Side::Right, "SENT"),
    (Side::Right, "OCTETS"),
    (Side::Right, "RECEIVED"),
    (Side::Right, "LOST"),
    (Side::Right, "CHANGES"),
    (Side::Right, "SEQNO RAISES"),
];

/// Writes what people read of a run.
///
/// # Errors
///
/// Those of `out`, and `OutOfMemory` if an allocation fails.
pub fn write_text<W: Write>(alloc: Global, shown: &Shown<'_>, out: &mut W) -> io::Result<()> {
    write_head(shown, out)?;
    write_timeline(alloc, shown, out)?;
    write_phases(alloc, shown, out)?;
    write_not_shortest(alloc, shown, out)?;
    write_routes(alloc, shown, out)?;
    write_counts(alloc, shown, out)?;
    write_expectations(shown, out)?;
    let outcome = shown.outcome;
    writeln!(
        out,
        "\nend {}: {} events, {} datagrams, {} octets",
        Seconds(outcome.ended),
        outcome.events,
        outcome.datagrams,
        outcome.octets
    )
}

fn write_head<W: Write>(shown: &Shown<'_>, out: &mut W) -> io::Result<()> {
    writeln!(
        out,
        "{}, {}, {}; {}, seed {}",
        Counted(shown.topology.nodes.len(), "node", "nodes"),
        Counted(shown.topology.links.len(), "link", "links"),
        Counted(shown.outcome.prefixes.len(), "prefix", "prefixes"),
        Seconds(shown.outcome.ended),
        shown.seed
    )
}

/// Writes the next hops that changed, and the steps between them.
fn write_timeline<W: Write>(alloc: Global, shown: &Shown<'_>, out: &mut W) -> io::Result<()> {
    let mut table = Table::new(alloc, &TIMELINE);
    push_timeline(shown, &mut table);
    if table.is_empty() {
        return writeln!(out, "\nNext hops:\nnone");
    }
    table.write("Next hops", out)
}

fn push_timeline(shown: &Shown<'_>, table: &mut Table<'_>) {
    let mut next = 0usize;
    for change in &shown.outcome.changes {
        let steps = shown.steps_until(next, change.at);
        push_steps(shown, steps, table);
        next = next.saturating_add(steps.len());
        push_change(shown, change, table);
    }
    push_steps(shown, shown.steps_until(next, u64::MAX), table);
}

fn push_steps(shown: &Shown<'_>, steps: &[Step], table: &mut Table<'_>) {
    for step in steps {
        table.push(Seconds(step.at));
        table.push("");
        table.push("");
        table.push(Happened(shown.step(step.action)));
    }
}

/// Adds a next hop that changed, if its prefix is shown.
fn push_change(shown: &Shown<'_>, change: &HopChange, table: &mut Table<'_>) {
    if let Some(prefix) = shown.prefix(change.prefix) {
        table.push(Seconds(change.at));
        table.push(shown.name(change.node));
        table.push(prefix);
        table.push(Changed(shown.hop(change.hop), change.kind));
    }
}

/// A step between the next hops that changed, as it is written.
#[derive(Clone, Copy)]
struct Happened<'a>(StepText<'a>);

impl fmt::Display for Happened<'_> {
    fn fmt<W: fmt::Write>(&self, f: &mut fmt::Formatter<W>) -> fmt::Result {
        write!(f, "-- {}", self.0)
    }
}

/// A next hop that changed, and whether it leads on, as it is written.
#[derive(Clone, Copy)]
struct Changed<'a>(&'a str, HopKind);

impl fmt::Display for Changed<'_> {
    fn fmt<W: fmt::Write>(&self, f: &mut fmt::Formatter<W>) -> fmt::Result {
        match self.1 {
            HopKind::Onward => f.write_str(self.0),
            HopKind::Loop => write!(f, "{} (a loop)", self.0),
        }
    }
}

/// Writes how long next hops changed after each change of the plan.
fn write_phases<W: Write>(alloc: Global, shown: &Shown<'_>, out: &mut W) -> io::Result<()> {
    let mut table = Table::new(alloc, &PHASES);
    for phase in &shown.outcome.phases {
        push_phase(shown, phase, &mut table);
    }
    table.write(
        "Until no next hop changed any more, after each change of the plan",
        out,
    )
}

fn push_phase(shown: &Shown<'_>, phase: &Phase, table: &mut Table<'_>) {
    table.push(Seconds(phase.from));
    table.push(Seconds(phase.settled_after));
    table.push(phase.changes);
    table.push(phase.datagrams);
    table.push(phase.octets);
    table.push(QualityText(phase.quality));
    table.push(BeginText {
        shown,
        phase: *phase,
    });
}

/// What ways are worth, as it is written.
#[derive(Clone, Copy)]
struct QualityText(Quality);

impl fmt::Display for QualityText {
    fn fmt<W: fmt::Write>(&self, f: &mut fmt::Formatter<W>) -> fmt::Result {
        let quality = self.0;
        write!(f, "{} shortest", quality.shortest)?;
        for (count, word) in [
            (quality.longer, "longer"),
            (quality.missing, "missing"),
            (quality.unreachable, "unreachable"),
            (quality.broken, "broken"),
            (quality.loops, "in a loop"),
        ] {
            if count > 0 {
                write!(f, ", {count} {word}")?;
            }
        }
        Ok(())
    }
}

/// The steps with which a phase began, as they are written.
#[derive(Clone, Copy)]
struct BeginText<'a> {
    shown: &'a Shown<'a>,
    phase: Phase,
}

impl fmt::Display for BeginText<'_> {
    fn fmt<W: fmt::Write>(&self, f: &mut fmt::Formatter<W>) -> fmt::Result {
        let mut separator = "";
        if self.phase.from == 0 {
            f.write_str("start")?;
            separator = ", ";
        }
        for step in self.shown.steps_of(&self.phase) {
            write!(f, "{separator}{}", self.shown.step(step.action))?;
            separator = ", ";
        }
        Ok(())
    }
}

/// Names the ways that are not shortest at the end of each phase, if there are any.
fn write_not_shortest<W: Write>(alloc: Global, shown: &Shown<'_>, out: &mut W) -> io::Result<()> {
    let mut table = Table::new(alloc, &NOT_SHORTEST);
    for (number, phase) in shown.outcome.phases.iter().enumerate() {
        push_ways(shown, phase.from, shown.not_shortest(number), &mut table);
    }
    if table.is_empty() {
        return Ok(());
    }
    table.write(
        "Ways that were not shortest before the next change of the plan",
        out,
    )
}

/// Adds the ways that are not shortest at the end of a phase, if one of them is shown.
fn push_ways(shown: &Shown<'_>, from: u64, ways: &[Route], table: &mut Table<'_>) {
    for way in ways {
        if shown.prefix(way.prefix).is_some() {
            table.push(Seconds(from));
            table.push(WaysText { shown, ways });
            return;
        }
    }
}

/// The nodes and prefixes of the first of these ways, and how many more there are.
#[derive(Clone, Copy)]
struct WaysText<'a> {
    shown: &'a Shown<'a>,
    ways: &'a [Route],
}

impl fmt::Display for WaysText<'_> {
    fn fmt<W: fmt::Write>(&self, f: &mut fmt::Formatter<W>) -> fmt::Result {
        let mut count = 0usize;
        for way in self.ways {
            if let Some(prefix) = self.shown.prefix(way.prefix) {
                if count < NAMED {
                    let separator = if count > 0 { ", " } else { "" };
                    let name = self.shown.name(way.node);
                    write!(f, "{separator}{name} {prefix} {}", way.kind.word())?;
                }
                count = count.saturating_add(1);
            }
        }
        if count > NAMED {
            write!(f, " and {} more", count - NAMED)?;
        }
        Ok(())
    }
}

/// Writes the ways at the end.
fn write_routes<W: Write>(alloc: Global, shown: &Shown<'_>, out: &mut W) -> io::Result<()> {
    let mut table = Table::new(alloc, &ROUTES);
    for route in &shown.outcome.routes {
        push_route(shown, route, &mut table);
    }
    table.write("Ways at the end", out)
}

/// Adds a way, if its prefix is shown.
fn push_route(shown: &Shown<'_>, route: &Route, table: &mut Table<'_>) {
    let Some(prefix) = shown.prefix(route.prefix) else {
        return;
    };
    let hop = match route.kind {
        RouteKind::Own => "itself",
        RouteKind::Down => "down",
        _ => shown.hop(route.hop),
    };
    table.push(shown.name(route.node));
    table.push(prefix);
    table.push(hop);
    table.push(NumberOr(route.cost, "-"));
    table.push(NumberOr(route.shortest, "-"));
    table.push(WayText {
        shown,
        route: *route,
    });
}

/// The names of the nodes along a way, and what is wrong with it.
#[derive(Clone, Copy)]
struct WayText<'a> {
    shown: &'a Shown<'a>,
    route: Route,
}

impl fmt::Display for WayText<'_> {
    fn fmt<W: fmt::Write>(&self, f: &mut fmt::Formatter<W>) -> fmt::Result {
        let mut at = self.route.node;
        f.write_str(self.shown.name(at))?;
        for _ in 0..self.shown.topology.nodes.len() {
            let Some(NextHop::Via(next)) = self.shown.hop_at(at, self.route.prefix) else {
                break;
            };
            write!(f, " {}", self.shown.name(next))?;
            at = next;
        }
        f.write_str(match self.route.kind {
            RouteKind::Broken => " (broken)",
            RouteKind::Loop => " .. (a loop)",
            RouteKind::Missing => " (there is a way)",
            _ => "",
        })
    }
}

/// Writes what happened at each node.
fn write_counts<W: Write>(alloc: Global, shown: &Shown<'_>, out: &mut W) -> io::Result<()> {
    let mut table = Table::new(alloc, &COUNTS);
    for (node, counts) in shown.outcome.counts.iter().enumerate() {
        push_counts(shown.name(node), counts, &mut table);
    }
    table.write("Datagrams, and what changed, at each node", out)
}

fn push_counts(name: &str, counts: &Counts, table: &mut Table<'_>) {
    table.push(name);
    table.push(counts.datagrams);
    table.push(counts.octets);
    table.push(counts.received);
    table.push(counts.lost);
    table.push(counts.changes);
    table.push(counts.raises);
}

/// Writes what was expected, and what was there.
fn write_expectations<W: Write>(shown: &Shown<'_>, out: &mut W) -> io::Result<()> {
    let expected = shown.topology.expectations.len();
    if expected == 0 {
        return Ok(());
    }
    writeln!(out, "\nExpectations:")?;
    for tested in &shown.outcome.tested {
        write_tested(shown, tested, out)?;
    }
    let untested = expected.saturating_sub(shown.outcome.tested.len());
    if untested > 0 {
        writeln!(out, "not met  {untested} are later than the run")?;
    }
    Ok(())
}

fn write_tested<W: Write>(shown: &Shown<'_>, tested: &Tested, out: &mut W) -> io::Result<()> {
    let Some(expectation) = shown.topology.expectations.get(tested.expectation) else {
        return Ok(());
    };
    let begin = if tested.is_met { "met    " } else { "not met" };
    let at = Seconds(expectation.at);
    let name = shown.name(expectation.node);
    let hop = HopText(shown.via(expectation.hop));
    write!(out, "{begin}  {at} {name} {} {hop}", expectation.prefix)?;
    if tested.is_met {
        return writeln!(out);
    }
    let found = HopText(shown.via(tested.found));
    writeln!(out, ": there was {found}")
}
