//! What machines read of a run: a JSON object a line. Moments and times are in centiseconds.

use crate::outcome::{Counts, HopChange, HopKind, Phase, Route, Tested};
use crate::shown::{NumberOr, Shown};
use babel_topology::{NextHop, Step};
use babel_value::Prefix;
use std::alloc::Global;
use std::fmt;
use std::io::{self, Write};

/// Writes the objects of a run.
///
/// # Errors
///
/// Those of `out`, and `OutOfMemory` if an allocation fails.
pub fn write_objects<W: Write>(alloc: Global, shown: &Shown<'_>, out: &mut W) -> io::Result<()> {
    write_changes(alloc, shown, out)?;
    for (number, phase) in shown.outcome.phases.iter().enumerate() {
        write_phase(phase, out)?;
        write_not_shortest(shown, shown.not_shortest(number), out)?;
    }
    for way in &shown.outcome.routes {
        write_route(shown, way, out)?;
    }
    for (node, counts) in shown.outcome.counts.iter().enumerate() {
        write_counts(shown, node, counts, out)?;
    }
    for tested in &shown.outcome.tested {
        write_tested(shown, tested, out)?;
    }
    write_untested(shown, out)?;
    write_end(shown, out)
}

/// Writes the next hops that changed, and the steps between them.
fn write_changes<W: Write>(alloc: Global, shown: &Shown<'_>, out: &mut W) -> io::Result<()> {
    let mut next = 0usize;
    for change in &shown.outcome.changes {
        let steps = shown.steps_until(next, change.at);
        write_steps(alloc, shown, steps, out)?;
        next = next.saturating_add(steps.len());
        write_change(shown, change, out)?;
    }
    write_steps(alloc, shown, shown.steps_until(next, u64::MAX), out)
}

fn write_steps<W: Write>(
    alloc: Global,
    shown: &Shown<'_>,
    steps: &[Step],
    out: &mut W,
) -> io::Result<()> {
    for step in steps {
        write_step(alloc, shown, step, out)?;
    }
    Ok(())
}

fn write_step<W: Write>(
    alloc: Global,
    shown: &Shown<'_>,
    step: &Step,
    out: &mut W,
) -> io::Result<()> {
    let text = format!(in alloc; "{}", shown.step(step.action))?;
    writeln!(
        out,
        "{{\"type\":\"step\",\"time\":{},\"step\":{}}}",
        step.at,
        Quoted(text.as_str())
    )
}

/// Writes a next hop that changed, if its prefix is shown.
fn write_change<W: Write>(shown: &Shown<'_>, change: &HopChange, out: &mut W) -> io::Result<()> {
    let Some(prefix) = shown.prefix(change.prefix) else {
        return Ok(());
    };
    let is_loop = matches!(change.kind, HopKind::Loop);
    writeln!(
        out,
        "{{\"type\":\"hop\",\"time\":{},\"node\":{},\"prefix\":\"{prefix}\",\"via\":{},\"loop\":{is_loop}}}",
        change.at,
        Quoted(shown.name(change.node)),
        Via(shown.via(change.hop))
    )
}

/// Begins the object of a phase.
fn write_phase<W: Write>(phase: &Phase, out: &mut W) -> io::Result<()> {
    write!(
        out,
        "{{\"type\":\"phase\",\"from\":{},\"until\":{},\"steps\":{},\"changes\":{},\
\"settled_after\":{},\"datagrams\":{},\"octets\":{},\"all_datagrams\":{},\"all_octets\":{}",
        phase.from,
        phase.until,
        phase.steps,
        phase.changes,
        phase.settled_after,
        phase.datagrams,
        phase.octets,
        phase.all_datagrams,
        phase.all_octets
    )?;
    let quality = phase.quality;
    write!(
        out,
        ",\"shortest\":{},\"longer\":{},\"missing\":{},\
\"unreachable\":{},\"broken\":{},\"loops\":{}",
        quality.shortest,
        quality.longer,
        quality.missing,
        quality.unreachable,
        quality.broken,
        quality.loops
    )
}

/// Ends the object of a phase with the ways that are not shortest at its end.
fn write_not_shortest<W: Write>(shown: &Shown<'_>, ways: &[Route], out: &mut W) -> io::Result<()> {
    out.write_all(b",\"not_shortest\":[")?;
    let mut begin = "{";
    for way in ways {
        if let Some(prefix) = shown.prefix(way.prefix) {
            write_way(shown, prefix, way, begin, out)?;
            begin = ",{";
        }
    }
    out.write_all(b"]}\n")
}

/// Writes a way at the end, if its prefix is shown.
fn write_route<W: Write>(shown: &Shown<'_>, way: &Route, out: &mut W) -> io::Result<()> {
    let Some(prefix) = shown.prefix(way.prefix) else {
        return Ok(());
    };
    write_way(shown, prefix, way, "{\"type\":\"route\",", out)?;
    out.write_all(b"\n")
}

/// Writes the object of a way to the prefix, which begins so.
fn write_way<W: Write>(
    shown: &Shown<'_>,
    prefix: Prefix,
    way: &Route,
    begin: &str,
    out: &mut W,
) -> io::Result<()> {
    let name = Quoted(shown.name(way.node));
    let via = Via(shown.via(way.hop));
    write!(
        out,
        "{begin}\"node\":{name},\"prefix\":\"{prefix}\",\"via\":{via}"
    )?;
    let cost = NumberOr(way.cost, "null");
    let shortest = NumberOr(way.shortest, "null");
    let kind = way.kind.word();
    write!(
        out,
        ",\"cost\":{cost},\"shortest\":{shortest},\"kind\":\"{kind}\"}}"
    )
}

fn write_counts<W: Write>(
    shown: &Shown<'_>,
    node: usize,
    counts: &Counts,
    out: &mut W,
) -> io::Result<()> {
    write!(
        out,
        "{{\"type\":\"node\",\"node\":{},\"datagrams\":{},\"octets\":{},\"received\":{}",
        Quoted(shown.name(node)),
        counts.datagrams,
        counts.octets,
        counts.received
    )?;
    writeln!(
        out,
        ",\"lost\":{},\"changes\":{},\"raises\":{}}}",
        counts.lost, counts.changes, counts.raises
    )
}

fn write_tested<W: Write>(shown: &Shown<'_>, tested: &Tested, out: &mut W) -> io::Result<()> {
    let Some(expectation) = shown.topology.expectations.get(tested.expectation).copied() else {
        return Ok(());
    };
    writeln!(
        out,
        "{{\"type\":\"expect\",\"time\":{},\"node\":{},\"prefix\":\"{}\",\"via\":{},\"found\":{},\"met\":{}}}",
        expectation.at,
        Quoted(shown.name(expectation.node)),
        expectation.prefix,
        Via(shown.via(expectation.hop)),
        Via(shown.via(tested.found)),
        tested.is_met
    )
}

/// Writes the expectations that are later than the run. None is met, since nothing was found.
fn write_untested<W: Write>(shown: &Shown<'_>, out: &mut W) -> io::Result<()> {
    for (number, expectation) in shown.topology.expectations.iter().enumerate() {
        if expectation.at > shown.outcome.ended {
            let untested = Tested {
                expectation: number,
                found: NextHop::Unreachable,
                is_met: false,
            };
            write_tested(shown, &untested, out)?;
        }
    }
    Ok(())
}

fn write_end<W: Write>(shown: &Shown<'_>, out: &mut W) -> io::Result<()> {
    let outcome = shown.outcome;
    writeln!(
        out,
        "{{\"type\":\"end\",\"time\":{},\"seed\":{},\"events\":{},\"datagrams\":{},\"octets\":{}}}",
        outcome.ended, shown.seed, outcome.events, outcome.datagrams, outcome.octets
    )
}

/// A next hop as JSON: a name, or no value.
#[derive(Clone, Copy)]
struct Via<'a>(Option<&'a str>);

impl fmt::Display for Via<'_> {
    fn fmt<W: fmt::Write>(&self, f: &mut fmt::Formatter<W>) -> fmt::Result {
        match self.0 {
            Some(name) => Quoted(name).fmt(f),
            None => f.write_str("null"),
        }
    }
}

/// A text as JSON.
#[derive(Clone, Copy)]
struct Quoted<'a>(&'a str);

impl fmt::Display for Quoted<'_> {
    fn fmt<W: fmt::Write>(&self, f: &mut fmt::Formatter<W>) -> fmt::Result {
        f.write_char('"')?;
        for letter in self.0.chars() {
            match letter {
                '"' | '\\' => write!(f, "\\{letter}"),
                letter if letter < ' ' => write!(f, "\\u{:04x}", u32::from(letter)),
                letter => f.write_char(letter),
            }?;
        }
        f.write_char('"')
    }
}
