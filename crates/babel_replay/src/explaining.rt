//! The routes of a prefix after a log, and why each is used or not.

ghost use Rattle.std.specs.Prelude.{◌≡◌, ◌≢◌, ◌⊎◌, [], length, nat_lt, slice_get, Err, IsOk, IsNone, OnOk, OnErr, IfOk, IfErr};
ghost use Rattle.std.specs.Io.KnownBytes.{Appends};
ghost use Rattle.std.specs.Option.{option_map_or};
ghost use Rattle.babel_value.specs.Metrics.{infinity, metric_sum};
ghost use Rattle.babel_sources.specs.Distances.{improves_on};
ghost use Rattle.babel_state.specs.Calls.{first_state, reported_entries};
ghost use Rattle.babel_state.specs.Configs.{config_fault};
ghost use Rattle.babel_state.specs.State.{announces};
ghost use Rattle.babel_replay.specs.LogReports.{room, routes_after, IsCause, IsReplayFault, IsStopped, OfAllLines, OfLinesBefore, Writes};
ghost use Rattle.babel_replay.specs.Report.{SendsAll};
ghost use Rattle.babel_replay.specs.Routes.{route_fields, route_line, route_lines, status_by, is_selected_over};
ghost use Rattle.babel_replay.specs.Taking.{LeadsByEvent, LeadsByLine, LeadsTo, TakesLine};

use crate::lines::{RouteLine, RouteStatus, route_line};
use crate::reading::read_line;
use crate::replaying::{Buffers, write_line};
use crate::stepping::make_step;
use crate::{Event, LineFault, ReplayFault, parse_line};
use arrayvec::ArrayVec;
use babel_choice::{Entry, RouteKey};
use babel_speaker::Speaker;
use babel_speaker::laws::datagrams_take_items;
use babel_state::Config;
use babel_text::is_skipped;
use babel_value::{Distance, Metric, Peer, Prefix, Source};
use std::alloc::Global;
use std::io::{BufRead, Write};

/// Writes a line for each route of the prefix after the log, ascending by neighbour: what the
/// neighbour advertised, the cost of the link to it, and whether the route is used, or why it
/// isn't.
///
/// After a fault other than L7 of a line, what was written are the routes after the lines before
/// it.
pub fn explain<R: BufRead, W: Write>(
    alloc: Global,
    config: Config,
    log: &mut R,
    prefix: Prefix,
    out: &mut W,
) -> Result<(), ReplayFault>
    ensures valid { IsOk result → IsNone (config_fault config) }
    ensures routes { OnOk result (OfAllLines (R.remaining log.old) (Writes (routes_after prefix) (first_state config) (W.contents out.old) (W.contents out.new))) }
    ensures fault { IfErr result (IsReplayFault (routes_after prefix) (first_state config) (config_fault config) (R.remaining log.old) (R.remaining log.new) (W.contents out.old) (W.contents out.new)) }
{
    match Speaker::new(alloc, config) {
        Ok(mut speaker) => explain_log(alloc, &mut speaker, log, &prefix, out),
        Err(fault) => Err(ReplayFault::Config(fault)),
    }
}

/// The same with a speaker of the configuration.
fn explain_log<R: BufRead, W: Write>(
    alloc: Global,
    speaker: &mut Speaker,
    log: &mut R,
    prefix: &Prefix,
    out: &mut W,
) -> Result<(), ReplayFault>
    ensures routes { OnOk result (OfAllLines (R.remaining log.old) (Writes (routes_after prefix.now) speaker.old.state (W.contents out.old) (W.contents out.new))) }
    ensures fault { IfErr result (IsStopped (routes_after prefix.now) speaker.old.state (R.remaining log.old) (W.contents out.old) (W.contents out.new)) }
{
    let mut number = 1;
    let taken = take_log(alloc, speaker, log, &mut number);
    match end_explanation(taken, speaker, prefix, out) {
        Ok(()) => Ok(()),
        Err(fault) => Err(ReplayFault::Line { number, fault }),
    }
}

/// Takes all lines. `number` becomes the number of the line at which it stops, which is one more
/// than the last at the end of the log.
fn take_log<R: BufRead>(
    alloc: Global,
    speaker: &mut Speaker,
    log: &mut R,
    number: &mut u64,
) -> Result<(), LineFault>
    requires { number.old ≡ 1 }
    ensures taken { OnOk result (OfAllLines (R.remaining log.old) (LeadsTo number.new speaker.old.state speaker.new.state)) }
    ensures fault { IfErr result (λ fault. OfLinesBefore (R.remaining log.old) number.new fault (LeadsTo number.new speaker.old.state speaker.new.state)) }
    ensures not_written { IfErr result (λ fault. fault ≢ LineFault.Write) }
{
    match Buffers::new(alloc) {
        Ok(mut buffers) => take_lines(speaker, &mut buffers.line, &mut buffers.octets, log, number),
        Err(_) => Err(LineFault::Memory),
    }
}

/// The same with the memory that it takes.
fn take_lines<R: BufRead>(
    speaker: &mut Speaker,
    line: &mut Vec<u8>,
    octets: &mut [u8],
    log: &mut R,
    number: &mut u64,
) -> Result<(), LineFault>
    requires { length octets.old ≡ room }
    ensures taken { OnOk result (OfAllLines (R.remaining log.old) (LeadsTo number.new speaker.old.state speaker.new.state)) }
    ensures fault { IfErr result (λ fault. OfLinesBefore (R.remaining log.old) number.new fault (LeadsTo number.new speaker.old.state speaker.new.state)) }
    ensures not_written { IfErr result (λ fault. fault ≢ LineFault.Write) }
{
    for turn in 1..u64::MAX {
        *number = turn;
        let more = match take_line(speaker, line, octets, log) {
            Ok(more) => more,
            Err(fault) => return Err(fault),
        };
        if !more {
            return Ok(());
        }
    }
    // No reader has so many lines.
    *number = u64::MAX;
    Err(LineFault::Read)
}

/// Takes the next line. False: the log has ended.
fn take_line<R: BufRead>(
    speaker: &mut Speaker,
    line: &mut Vec<u8>,
    octets: &mut [u8],
    log: &mut R,
) -> Result<bool, LineFault>
    requires { length octets.old ≡ room }
    ensures taken { IfOk result (λ more. TakesLine (R.remaining log.old) (R.remaining log.new) more (LeadsByLine speaker.old.state speaker.new.state) (speaker.new.state ≡ speaker.old.state)) }
    ensures cause { IfErr result (IsCause (R.remaining log.old) []) }
    ensures not_written { IfErr result (λ fault. fault ≢ LineFault.Write) }
    ensures unchanged { OnErr result (speaker.new.state ≡ speaker.old.state) }
{
    let more = read_line(log, line)?;
    if !more {
        return Ok(false);
    }
    if is_skipped(line) {
        return Ok(true);
    }
    let event = match parse_line(line, octets) {
        Ok(event) => event,
        Err(fault) => return Err(fault),
    };
    match take_event(speaker, &event) {
        Ok(()) => Ok(true),
        Err(fault) => Err(fault),
    }
}

/// Makes the step of a line, and takes the datagrams that the speaker then sends.
fn take_event(speaker: &mut Speaker, event: &Event<'_>) -> Result<(), LineFault>
    ensures ok { OnOk result (LeadsByEvent event.now.time event.now.action speaker.old.state speaker.new.state) }
    ensures memory { IfErr result (λ fault. fault ≡ LineFault.Memory) }
    ensures unchanged { OnErr result (speaker.new.state ≡ speaker.old.state) }
{
    match make_step(speaker, event, None) {
        Ok(_) => {
            send_datagrams(speaker, event.time);
            Ok(())
        }
        Err(fault) => Err(fault),
    }
}

/// Takes datagrams from the speaker until there is none.
fn send_datagrams(speaker: &mut Speaker, time: u64)
    ensures { SendsAll time speaker.old.state speaker.new.state }
{
    datagrams_take_items();
    let mut datagram = ArrayVec::new();
    for _ in 0..speaker.pending_count() + 1 {
        let Some(_target) = speaker.next_datagram(time, &mut datagram) else {
            return;
        };
    }
}

/// Writes the routes of the prefix. The fault is that of the log, or L7 if writing fails.
fn end_explanation<W: Write>(
    taken: Result<(), LineFault>,
    speaker: &Speaker,
    prefix: &Prefix,
    out: &mut W,
) -> Result<(), LineFault>
    ensures ok { OnOk result (IsOk taken × Appends (W.contents out.old) (W.contents out.new) (route_lines prefix.now speaker.now.state)) }
    ensures fault { IfErr result (λ fault. (fault ≡ LineFault.Write) ⊎ ((taken ≡ Err fault) × Appends (W.contents out.old) (W.contents out.new) (route_lines prefix.now speaker.now.state))) }
{
    write_routes(speaker, prefix, out)?;
    taken
}

/// Writes a line for each route of the prefix, and flushes.
fn write_routes<W: Write>(speaker: &Speaker, prefix: &Prefix, out: &mut W) -> Result<(), LineFault>
    ensures written { OnOk result (Appends (W.contents out.old) (W.contents out.new) (route_lines prefix.now speaker.now.state)) }
    ensures failed { IfErr result (λ fault. fault ≡ LineFault.Write) }
{
    for index in 0..speaker.route_count() {
        write_route(speaker, prefix, index, out)?;
    }
    match out.flush() {
        Ok(()) => Ok(()),
        Err(_) => Err(LineFault::Write),
    }
}

/// The line of the prefix's route at the index, if it has so many.
fn write_route<W: Write>(
    speaker: &Speaker,
    prefix: &Prefix,
    index: usize,
    out: &mut W,
) -> Result<(), LineFault>
    ensures written { OnOk result (Appends (W.contents out.old) (W.contents out.new) (option_map_or (route_line prefix.now speaker.now.state) (slice_get (reported_entries prefix.now speaker.now.state) index) [])) }
    ensures failed { IfErr result (λ fault. fault ≡ LineFault.Write) }
{
    let Some((peer, entry, cost)) = speaker.entry(prefix, index) else {
        return Ok(());
    };
    write_line(
        out,
        &route_line(&route_fields(speaker, prefix, peer, entry, cost)),
    )
}

/// What is printed of a route: the entry of a neighbour for the prefix, over a link of this cost.
pub fn route_fields(
    speaker: &Speaker,
    prefix: &Prefix,
    peer: Peer,
    entry: Entry,
    cost: Metric,
) -> RouteLine
    ensures { result ≡ route_fields prefix.now speaker.now.state peer entry cost }
{
    let key = Source {
        prefix: *prefix,
        router: entry.router,
    };
    let source = speaker.source(&key);
    let metric = metric_over(&entry.distance, cost);
    let key = RouteKey {
        prefix: *prefix,
        peer,
    };
    let status = route_status(speaker, &key, &entry.distance, &source, metric);
    RouteLine {
        prefix: *prefix,
        peer,
        router: entry.router,
        advertised: entry.distance,
        cost,
        metric,
        source,
        status,
    }
}

/// Whether a route is used, or why not, by the first reason that holds.
fn route_status(
    speaker: &Speaker,
    key: &RouteKey,
    advertised: &Distance,
    source: &Option<Distance>,
    metric: Metric,
) -> RouteStatus
    ensures { result ≡ status_by (announces key.now.prefix speaker.now.state) advertised.now source.now metric (is_selected_over key.now.prefix key.now.peer speaker.now.state) }
{
    if speaker.announced(&key.prefix) {
        return RouteStatus::Local;
    }
    if !is_finite(advertised) {
        return RouteStatus::Infinite;
    }
    if !is_feasible(advertised, source) {
        return RouteStatus::Unfeasible;
    }
    if !metric.is_finite() {
        return RouteStatus::Unreachable;
    }
    if is_selected(speaker, &key.prefix, &key.peer) {
        return RouteStatus::Selected;
    }
    RouteStatus::Candidate
}

/// The metric of a route over a link of this cost.
fn metric_over(advertised: &Distance, cost: Metric) -> Metric
    ensures { result ≡ metric_sum advertised.now.metric cost }
{
    advertised.metric.add(cost)
}

/// Whether the neighbour advertises the route still.
fn is_finite(advertised: &Distance) -> bool
    ensures { result ≡ nat_lt advertised.now.metric infinity }
{
    advertised.metric.is_finite()
}

/// Whether a route is feasible against the distance of its source, if there is one (RFC 8966,
/// section 3.5.1).
fn is_feasible(advertised: &Distance, source: &Option<Distance>) -> bool
    ensures { result ≡ improves_on source.now advertised.now }
{
    match source {
        Some(distance) => advertised.better(*distance),
        None => true,
    }
}

/// Whether the prefix's selected route leads over the neighbour.
fn is_selected(speaker: &Speaker, prefix: &Prefix, peer: &Peer) -> bool
    ensures { result ≡ is_selected_over prefix.now peer.now speaker.now.state }
{
    match speaker.selected(prefix) {
        Some(route) => route.peer == *peer,
        None => false,
    }
}
