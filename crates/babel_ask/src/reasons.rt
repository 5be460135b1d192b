//! A sentence for each route of a prefix.

use crate::cells::Cell;
use crate::fields::{field, interface_name, is_of, word};
use crate::objects::{ShortAddress, Value, write_members};
use crate::requests::{request_of, write_request, write_request_object};
use babel_text::parse_prefix;
use std::io::{self, Write};

/// A route of a prefix, by the words of its line: `PREFIX via N ADDRESS router .. STATUS`.
#[derive(Clone, Copy)]
struct Route<'l> {
    prefix: &'l str,
    address: &'l str,
    device: &'l str,
    advertised: &'l str,
    cost: &'l str,
    metric: &'l str,
    /// The metric of the feasibility distance, or `less` if there is none.
    sent: &'l str,
    status: &'l str,
}

/// The route of a line, if it is one.
fn route_of<'l>(answer: &'l str, line: &'l str) -> Option<Route<'l>> {
    let status = line.split_ascii_whitespace().last()?;
    let route = Route {
        prefix: word(line, 0),
        address: word(line, 3),
        device: interface_name(answer, word(line, 2)),
        advertised: field(line, "advertised"),
        cost: field(line, "cost"),
        metric: field(line, "metric"),
        sent: sent_in(line),
        status,
    };
    let is_whole = word(line, 1) == "via"
        && !route.advertised.is_empty()
        && !route.cost.is_empty()
        && !route.metric.is_empty();
    is_whole.then_some(route)
}

/// The metric after `source SEQNO METRIC`; `less` after `source none`.
fn sent_in(line: &str) -> &str {
    match line.split_once(" source ") {
        Some((_, rest)) if word(rest, 0) != "none" => word(rest, 1),
        _ => "less",
    }
}

/// Writes a sentence for each route of the prefix, for each pending request, and for each neighbour
/// without a route whose Updates of it were ignored, unless this router announces it. If there is
/// neither a route nor such a neighbour, writes that.
pub(crate) fn write_reasons<W: Write>(answer: &str, prefix: &str, out: &mut W) -> io::Result<()> {
    let is_own = is_announced(answer, prefix);
    let mut is_known = false;
    for line in answer.lines() {
        if let Some(route) = route_of(answer, line) {
            is_known = true;
            write_reason(&route, out)?;
        } else if let Some(ignored) = ignored_of(answer, line) {
            if !is_own && !has_route_of(answer, &ignored) {
                is_known = true;
                write_ignored(&ignored, out)?;
            }
        } else if let Some(request) = request_of(answer, line) {
            write_request(&request, out)?;
        }
    }
    if is_known {
        return Ok(());
    }
    let reason = if is_own {
        "this router announces it"
    } else {
        "no neighbour has advertised it"
    };
    writeln!(out, "{prefix}: {reason}")
}

/// Whether the dump has the prefix among those that the router announces.
fn is_announced(answer: &str, prefix: &str) -> bool {
    let Some(asked) = parse_prefix(prefix) else {
        return false;
    };
    for line in answer.lines() {
        if is_of(line, "xroute") && parse_prefix(field(line, "prefix")) == Some(asked) {
            return true;
        }
    }
    false
}

/// Whether the neighbour has a route of the prefix now: then what was ignored before it matters no
/// more.
fn has_route_of(answer: &str, ignored: &Ignored<'_>) -> bool {
    for line in answer.lines() {
        if word(line, 1) == "via"
            && word(line, 2) == ignored.interface
            && word(line, 3) == ignored.address
        {
            return true;
        }
    }
    false
}

fn write_ignored<W: Write>(ignored: &Ignored<'_>, out: &mut W) -> io::Result<()> {
    let Ignored {
        prefix,
        address,
        device,
        code,
        ..
    } = *ignored;
    let from = ShortAddress(address);
    let ago = Cell::Centiseconds(ignored.ago.parse::<u64>().unwrap_or(0));
    let (number, times) = match ignored.count {
        "1" => ("", "once, "),
        count => (count, " times, the last time "),
    };
    let (reason, kind, rest) = match ignored.kind {
        "" => (reason_of(code), "", ""),
        kind => (
            "it has a sub-TLV of type ",
            kind,
            ", which must be understood",
        ),
    };
    writeln!(
        out,
        "{prefix}: {from} on {device} advertised it {number}{times}{ago} ago, and that was ignored: {reason}{kind}{rest} ({code})"
    )
}

/// Updates of a prefix that were ignored, by the words of their line: `PREFIX from N ADDRESS
/// ignored COUNT ago TIME for CODE`.
#[derive(Clone, Copy)]
struct Ignored<'l> {
    prefix: &'l str,
    interface: &'l str,
    address: &'l str,
    device: &'l str,
    count: &'l str,
    /// How long ago the last one came, in centiseconds.
    ago: &'l str,
    code: &'l str,
    /// The type of the sub-TLV after I5.
    kind: &'l str,
}

fn ignored_of<'l>(answer: &'l str, line: &'l str) -> Option<Ignored<'l>> {
    let ignored = Ignored {
        prefix: word(line, 0),
        interface: word(line, 2),
        address: word(line, 3),
        device: interface_name(answer, word(line, 2)),
        count: word(line, 5),
        ago: word(line, 7),
        code: word(line, 9),
        kind: word(line, 10),
    };
    let is_whole = word(line, 1) == "from"
        && word(line, 4) == "ignored"
        && !ignored.code.is_empty();
    is_whole.then_some(ignored)
}

/// What the code of an Update that was not stored means.
fn reason_of(code: &str) -> &'static str {
    match code {
        "I4" => "a sub-TLV runs past its end",
        "I8" => "it has no router-id, or a reserved one",
        "I9" => "it has no next hop of its address family",
        "I10" => "its interval is 0",
        "V3" => "it has this router's own router-id",
        "V4" => "no Hello of the sender came before it",
        "V5" => "this router has no room for another route",
        _ => "for another reason",
    }
}

fn write_reason<W: Write>(route: &Route<'_>, out: &mut W) -> io::Result<()> {
    let via = ShortAddress(route.address);
    let device = route.device;
    write!(out, "via {via} on {device}: ")?;
    for text in reason_texts(route).iter() {
        write!(out, "{text}")?;
    }
    writeln!(out)
}

/// Why a route is used or not, as texts that make a sentence.
fn reason_texts<'l>(route: &Route<'l>) -> [&'l str; 7] {
    let Route {
        prefix,
        advertised,
        cost,
        metric,
        sent,
        ..
    } = *route;
    match route.status {
        "selected" => ["used, with metric ", metric, "", "", "", "", ""],
        "candidate" => [
            "not used, since another route is better or was selected first: its metric is ",
            metric,
            "",
            "",
            "",
            "",
            "",
        ],
        "local" => [
            "not used, since this router announces ",
            prefix,
            " itself",
            "",
            "",
            "",
            "",
        ],
        "infinite" => [
            "not used, since the neighbour retracted ",
            prefix,
            " or advertises it no longer",
            "",
            "",
            "",
            "",
        ],
        "unreachable" if cost == "65535" => [
            "not used, since the link to the neighbour is down",
            "",
            "",
            "",
            "",
            "",
            "",
        ],
        "unreachable" => [
            "not used, since the advertised metric ",
            advertised,
            " and the link's cost ",
            cost,
            " make more than 65534",
            "",
            "",
        ],
        _ => [
            "not used, since ",
            prefix,
            " was advertised with metric ",
            advertised,
            ", and this router already sent ",
            sent,
            ": it might lead back here",
        ],
    }
}

/// Writes an object for each route of the prefix, for each pending request, for each neighbour whose
/// Updates of it were ignored, and if this router announces it.
pub(crate) fn write_reason_objects<W: Write>(
    answer: &str,
    prefix: &str,
    out: &mut W,
) -> io::Result<()> {
    if is_announced(answer, prefix) {
        let status = ("status", Value::Text("announced"));
        write_members(&[("prefix", Value::Text(prefix)), status], out)?;
    }
    for line in answer.lines() {
        write_line_object(answer, line, out)?;
    }
    Ok(())
}

/// Writes the object of a line: that of a route, of a request, or of what was ignored. Other lines
/// have none.
fn write_line_object<W: Write>(answer: &str, line: &str, out: &mut W) -> io::Result<()> {
    if let Some(route) = route_of(answer, line) {
        return write_members(&members_of(&route), out);
    }
    if let Some(request) = request_of(answer, line) {
        return write_request_object(&request, out);
    }
    match ignored_of(answer, line) {
        Some(ignored) => write_ignored_object(&ignored, out),
        None => Ok(()),
    }
}

fn members_of<'l>(route: &Route<'l>) -> [(&'static str, Value<'l>); 7] {
    [
        ("prefix", Value::Text(route.prefix)),
        ("via", Value::Address(route.address)),
        ("device", Value::Text(route.device)),
        ("advertised", Value::number(route.advertised)),
        ("cost", Value::number(route.cost)),
        ("metric", Value::number(route.metric)),
        ("status", Value::Text(route.status)),
    ]
}

fn write_ignored_object<W: Write>(ignored: &Ignored<'_>, out: &mut W) -> io::Result<()> {
    let members = [
        ("prefix", Value::Text(ignored.prefix)),
        ("via", Value::Address(ignored.address)),
        ("device", Value::Text(ignored.device)),
        ("status", Value::Text("ignored")),
        ("count", Value::number(ignored.count)),
        ("ago", Value::number(ignored.ago)),
        ("code", Value::Text(ignored.code)),
        ("kind", Value::number(ignored.kind)),
    ];
    let count = if ignored.kind.is_empty() { 7 } else { 8 };
    write_members(&members[..count], out)
}
