//! When a tick next has something to do (RFC 8966, sections 3.2.5, 3.4, 3.5.4, 3.7.1 and 3.8.2.1).

ghost use Rattle.std.specs.Prelude.{◌≡◌, ◌≢◌, ◌↔◌, ◌+◌, ◌<◌, ℕ, [], IsTrue, false, map, drop};
ghost use Rattle.babel_value.specs.Prefixes.{PrefixValue};
ghost use Rattle.babel_speaker.specs.Deadlines.{earliest, hello_due, link_due, next_deadline, EarlyTicksChangeNothing};
ghost use Rattle.babel_speaker.specs.StalePrefixes.{is_stale};
ghost use Rattle.babel_state.specs.CurrentSelections.{AreCurrent};
ghost use Rattle.babel_state.specs.Ticks.{ticked};

use crate::hints::Hints;
use crate::state::Core;
use crate::tables::timers::earliest_interface;
use crate::tables::{Announced, LinkCosts, RequestTable};
use babel_choice::Costs;
use babel_link::{History, Link, Neighbours};
use babel_route::Routes;
use babel_sources::Sources;

/// If all selections are current, a tick before the least deadline changes nothing.
#[tactic(auto, using(crate::proofs::EarlyTicks::early_ticks))]
pub fn early_ticks_change_nothing()
    ensures { EarlyTicksChangeNothing }
{}

/// When the next Hello of the history is missed.
fn hello_due(history: &Option<History>) -> u64
    ensures { result ≡ hello_due history.now }
{
    match history {
        Some(history) => match history.timer {
            Some(timer) => timer.due,
            None => u64::MAX,
        },
        None => u64::MAX,
    }
}

/// When a Hello of the neighbour is missed or its IHU is too old.
fn link_due(link: &Link) -> u64
    ensures { result ≡ link_due link.now }
{
    let txcost_due = match link.txcost_due {
        Some(due) => due,
        None => u64::MAX,
    };
    hello_due(&link.multicast)
        .min(hello_due(&link.unicast))
        .min(txcost_due)
}

/// The least of a moment and of the deadlines of all neighbours.
fn earliest_neighbour(neighbours: &Neighbours, due: u64) -> u64
    ensures { result ≡ earliest due (map (λ e. link_due e.1) neighbours.now) }
{
    let mut least = due;
    for entry in neighbours.as_slice() {
        least = least.min(link_due(&entry.1));
    }
    least
}

/// The least of a moment and of the deadlines of all routes.
fn earliest_route(routes: &Routes, due: u64) -> u64
    ensures { result ≡ earliest due (map (λ e. e.1.deadline) routes.now.entries) }
{
    let mut least = due;
    for route in routes.routes() {
        least = least.min(route.1.deadline);
    }
    least
}

/// The earlier one of a moment and of the deadline of the request at the index.
fn earlier_of_request(requests: &RequestTable, index: usize, due: u64) -> u64
    ensures { earliest result (map (λ e. e.1.due) (drop (index + 1) requests.now)) ≡ earliest due (map (λ e. e.1.due) (drop index requests.now)) }
{
    match requests.at(index) {
        Some((_, request)) => due.min(request.due),
        None => due,
    }
}

/// The least of a moment and of the deadlines of all pending requests.
#[tactic(auto, using(crate::proofs::Earliest::all_passed))]
fn earliest_request(requests: &RequestTable, due: u64) -> u64
    ensures { result ≡ earliest due (map (λ e. e.1.due) requests.now) }
{
    let mut least = due;
    for index in 0..requests.len() {
        least = earlier_of_request(requests, index, least);
    }
    least
}

/// The earlier one of a moment and of that from which on the source at the index is collected.
fn earlier_of_source(sources: &Sources, index: usize, due: u64) -> u64
    ensures { earliest result (map (λ e. e.1.due) (drop (index + 1) sources.now)) ≡ earliest due (map (λ e. e.1.due) (drop index sources.now)) }
{
    match sources.entry_at(index) {
        Some((_, entry)) => due.min(entry.due),
        None => due,
    }
}

/// The least of a moment and of those from which on sources are collected.
#[tactic(auto, using(crate::proofs::Earliest::all_passed))]
fn earliest_source(sources: &Sources, due: u64) -> u64
    ensures { result ≡ earliest due (map (λ e. e.1.due) sources.now) }
{
    let mut least = due;
    for index in 0..sources.len() {
        least = earlier_of_source(sources, index, least);
    }
    least
}

/// The least deadline of the state; the greatest moment if there is none. It is one walk over
/// interfaces, neighbours, routes and pending requests, and over the sources only if they are
/// collected.
#[tactic(auto, unfolding(crate::specs::Deadlines::next_deadline), using(crate::proofs::Earliest::earliest_both))]
fn next_deadline(core: &Core) -> u64
    ensures { result ≡ next_deadline core.now }
{
    let due = earliest_interface(&core.interfaces, u64::MAX);
    let due = earliest_neighbour(&core.neighbours, due);
    let due = earliest_route(&core.routes, due);
    let due = earliest_request(&core.requests, due);
    if core.collects {
        earliest_source(&core.sources, due)
    } else {
        due
    }
}

/// Whether the selection of each prefix is the one that a reselection would leave. It is one merge
/// of the entries and the selections, and ends at the first that isn't.
fn none_is_stale<C: Costs>(
    routes: &Routes,
    announced: &Announced,
    sources: &Sources,
    costs: &C,
) -> bool
    ensures { IsTrue result ↔ ((prefix : PrefixValue) → is_stale sources.now (C.cost_of costs.now) announced.now routes.now prefix ≡ false) }
{
    let mut walk = routes.prefixes();
    while let Some(prefix) = walk.prefix() {
        let origin = announced.origin(&prefix);
        if !walk.pass(&prefix, origin, sources, costs) {
            return false;
        }
    }
    true
}

/// Whether all selections are current.
fn are_current(core: &Core) -> bool
    ensures { IsTrue result ↔ AreCurrent core.now }
{
    let costs = LinkCosts::new(&core.interfaces, &core.neighbours);
    none_is_stale(&core.routes, &core.announced, &core.sources, &costs)
}

/// The moment before which a tick changes nothing. It is 0 if an item is pending or if a selection
/// isn't current, and else the least deadline of the state. If the speaker is settled, all its
/// selections are current, and none is looked at.
#[tactic(auto, using(crate::proofs::EarlyTicks::early))]
pub fn next_due(core: &Core, hints: &Hints) -> u64
    requires settled { IsTrue hints.now.settled → AreCurrent core.now }
    ensures idle { (now : ℕ) → now < result → ticked now core.now ≡ core.now }
    ensures pending { core.now.pending.items ≢ [] → result ≡ 0 }
    ensures current { 0 < result → AreCurrent core.now }
    ensures deadline { core.now.pending.items ≡ [] → AreCurrent core.now → result ≡ next_deadline core.now }
{
    // The selections are in order.
    let _count = core.routes.len();
    if core.pending_count() > 0 {
        return 0;
    }
    if !hints.settled && !are_current(core) {
        return 0;
    }
    next_deadline(core)
}
