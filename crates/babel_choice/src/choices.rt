//! The choice among the candidates of a prefix (RFC 8966, section 3.6).

ghost use Rattle.std.specs.Prelude.{◌≡◌, ◌<◌, true, false, not, drop, length, slice_get, option_and_then, Option, IfSome, IsNone, IsSome, Some, None, option_map, nat_lt, if◌then◌else◌};
ghost use Rattle.std.specs.List.{filter, list_all};
ghost use Rattle.std.specs.Option.{option_map_or};
ghost use Rattle.std.specs.Ordering.{is_lt, nat_cmp};
ghost use Rattle.babel_table.specs.Firsts.{first_of};
ghost use Rattle.babel_value.specs.Metrics.{infinity};
ghost use Rattle.babel_choice.specs.declared.choices.Candidate.{Candidate};
ghost use Rattle.babel_choice.specs.PrefixBounds.{is_before};
ghost use Rattle.babel_choice.specs.Origins.{is_own};
ghost use Rattle.babel_choice.specs.Choices.{is_of, others_of, rank_at, is_lesser_rank, routes_of, has_entry, choice, peer_before, is_candidate, is_change, is_feasible_route, route_metric, preference, selection_of, selection_metric, overtakes, candidates};

use crate::walks::is_of;
use crate::{Before, ChoiceInputs, Costs, Cursor, Entry, Origin, RouteKey, Selection};
use babel_sources::{SourceEntry, SourcesOver};
use babel_table::{Table, places_below_near};
use babel_value::{Metric, Peer, Prefix, Source};
use std::cmp::Ordering;

/// The criteria between the candidates of a prefix, the first field first: the least rank is
/// selected.
#[derive(Clone, Copy, PartialEq, Eq, PartialOrd, Ord)]
pub struct Rank {
    /// The metric by the neighbour's present cost.
    pub metric: Metric,
    /// Whether the neighbour is another than the one selected before.
    pub is_change: bool,
    /// The neighbour.
    pub peer: Peer,
}

/// A candidate: its metric and its index.
#[derive(Clone, Copy)]
struct Candidate {
    metric: Metric,
    place: usize,
}

/// The selection of the prefix after this one: the candidate that no other comes before, and none
/// if the prefix is the speaker's own.
#[inline(always)]
pub fn choose<E: Table<RouteKey, Entry>, T: Table<Source, SourceEntry>, C: Costs>(
    inputs: &ChoiceInputs<'_, E, T, C>,
    prefix: &Prefix,
    origin: Origin,
    before: &Option<Selection>,
    cursor: &mut Cursor,
) -> Option<Selection>
    ensures choice { result ≡ choice inputs.now.sources.now (C.cost_of inputs.now.costs.now) prefix.now (is_own origin) before.now (E.entries inputs.now.entries.now) }
    ensures known { IsSome result → has_entry (E.entries inputs.now.entries.now) prefix.now ≡ true }
{
    let first = choose_place(inputs, prefix, origin, peer_of(before), cursor);
    selection_at(inputs.entries, first)
}

/// The index of the route that `choose` selects, if this neighbour was selected before. The search
/// begins at the cursor, which goes to the last route of the prefix.
#[inline(always)]
pub fn choose_place<E: Table<RouteKey, Entry>, T: Table<Source, SourceEntry>, C: Costs>(
    inputs: &ChoiceInputs<'_, E, T, C>,
    prefix: &Prefix,
    origin: Origin,
    before: Option<Peer>,
    cursor: &mut Cursor,
) -> Option<usize>
    ensures { option_and_then (slice_get (E.entries inputs.now.entries.now)) result ≡ first_of (preference (C.cost_of inputs.now.costs.now) before) (candidates inputs.now.sources.now (C.cost_of inputs.now.costs.now) prefix.now (is_own origin) (E.entries inputs.now.entries.now)) }
{
    if origin.is_own() {
        return None;
    }
    let entries = inputs.entries;
    let place = places_below_near(entries, cursor.entry, &Before { prefix: *prefix });
    let near = &mut cursor.source;
    let (first, end) = first_from(inputs, place, prefix, before, near);
    cursor.entry = end.wrapping_sub(1);
    first
}

/// The neighbour of the selection.
pub fn peer_of(selection: &Option<Selection>) -> Option<Peer>
    ensures { result ≡ peer_before selection.now }
{
    match selection {
        Some(selection) => Some(selection.peer),
        None => None,
    }
}

/// The index of the candidate of the prefix that no other comes before, if this neighbour was
/// selected before, and the index after the routes of the prefix. The first one is at the index
/// `start`, or would be. A prefix mostly has one route: that is compiled into the caller.
#[inline(always)]
pub fn first_from<E: Table<RouteKey, Entry>, T: Table<Source, SourceEntry>, C: Costs>(
    inputs: &ChoiceInputs<'_, E, T, C>,
    start: usize,
    prefix: &Prefix,
    before: Option<Peer>,
    near: &mut usize,
) -> (Option<usize>, usize)
    requires { list_all (λ e. not (is_before prefix.now e.0.prefix)) (drop start (E.entries inputs.now.entries.now)) ≡ true }
    ensures first { option_and_then (slice_get (E.entries inputs.now.entries.now)) result.0 ≡ first_of (preference (C.cost_of inputs.now.costs.now) before) (filter (is_candidate inputs.now.sources.now (C.cost_of inputs.now.costs.now)) (routes_of prefix.now (drop start (E.entries inputs.now.entries.now)))) }
    ensures rest { drop result.1 (E.entries inputs.now.entries.now) ≡ others_of prefix.now (drop start (E.entries inputs.now.entries.now)) }
{
    let entries = inputs.entries;
    if start >= entries.len() {
        return (None, start);
    }
    let Some(route) = route_at(entries, start, prefix) else {
        return (None, start);
    };
    let end = start + 1;
    if route_at(entries, end, prefix).is_some() {
        return first_of_several(inputs, start, prefix, before, near);
    }
    match candidate_metric(&route, inputs.sources, inputs.costs, near) {
        Some(_) => (Some(start), end),
        None => (None, end),
    }
}

/// The route at the index, if it is of the prefix.
#[inline(always)]
fn route_at<E: Table<RouteKey, Entry>>(
    entries: &E,
    place: usize,
    prefix: &Prefix,
) -> Option<(RouteKey, Entry)>
    ensures none { IsNone result → option_map_or (is_of prefix.now) (slice_get (E.entries entries.now) place) false ≡ false }
    ensures some { IfSome result (λ route. (slice_get (E.entries entries.now) place ≡ Some route) × (is_of prefix.now route ≡ true)) }
{
    let route = entries.at(place)?;
    if is_of(&route, prefix) {
        Some(route)
    } else {
        None
    }
}

/// What `first_from` returns, by a walk over the routes. It is quicker as a function of its own,
/// which has the registers for itself.
#[inline(never)]
fn first_of_several<E: Table<RouteKey, Entry>, T: Table<Source, SourceEntry>, C: Costs>(
    inputs: &ChoiceInputs<'_, E, T, C>,
    start: usize,
    prefix: &Prefix,
    before: Option<Peer>,
    near: &mut usize,
) -> (Option<usize>, usize)
    requires { list_all (λ e. not (is_before prefix.now e.0.prefix)) (drop start (E.entries inputs.now.entries.now)) ≡ true }
    ensures first { option_and_then (slice_get (E.entries inputs.now.entries.now)) result.0 ≡ first_of (preference (C.cost_of inputs.now.costs.now) before) (filter (is_candidate inputs.now.sources.now (C.cost_of inputs.now.costs.now)) (routes_of prefix.now (drop start (E.entries inputs.now.entries.now)))) }
    ensures rest { drop result.1 (E.entries inputs.now.entries.now) ≡ others_of prefix.now (drop start (E.entries inputs.now.entries.now)) }
{
    let entries = inputs.entries;
    let len = entries.len();
    let mut first: Option<Candidate> = None;
    for place in start..len {
        let Some(route) = entries.at(place) else {
            return (place_of(&first), place);
        };
        if !is_of(&route, prefix) {
            return (place_of(&first), place);
        }
        first = first_with(inputs, first, (place, &route), before, near);
    }
    (place_of(&first), len)
}

fn place_of(first: &Option<Candidate>) -> Option<usize>
    ensures { result ≡ option_map (λ c. c.place) first.now }
{
    match first {
        Some(first) => Some(first.place),
        None => None,
    }
}

/// The selection of the route at the index, if there is one.
pub fn selection_at<E: Table<RouteKey, Entry>>(
    entries: &E,
    place: Option<usize>,
) -> Option<Selection>
    ensures { result ≡ option_map selection_of (option_and_then (slice_get (E.entries entries.now)) place) }
{
    let route = entries.at(place?)?;
    Some(Selection {
        peer: route.0.peer,
        entry: route.1,
    })
}

/// The candidate found before, unless the route at the index is a candidate that comes before it.
/// Most routes don't: so their metrics are compared first, and the source of such a route is not
/// looked up.
#[inline(always)]
fn first_with<E: Table<RouteKey, Entry>, T: Table<Source, SourceEntry>, C: Costs>(
    inputs: &ChoiceInputs<'_, E, T, C>,
    found: Option<Candidate>,
    at: (usize, &(RouteKey, Entry)),
    before: Option<Peer>,
    near: &mut usize,
) -> Option<Candidate>
    requires found { IfSome found (λ old. old.place < length (E.entries inputs.now.entries.now)) }
    requires new { at.0 < length (E.entries inputs.now.entries.now) }
    ensures { let new : Candidate = record { metric = route_metric (C.cost_of inputs.now.costs.now) at.entry.1.now; place = at.entry.0 } in result ≡ (if is_candidate inputs.now.sources.now (C.cost_of inputs.now.costs.now) at.entry.1.now then Some (option_map_or (λ old. if is_lesser_rank (rank_at (E.entries inputs.now.entries.now) before new.metric new.place) (rank_at (E.entries inputs.now.entries.now) before old.metric old.place) then new else old) found new) else found) }
{
    let (place, route) = at;
    let Some(metric) = metric_in_turn(route, inputs.costs) else {
        return found;
    };
    let new = Candidate { metric, place };
    if is_first(inputs.entries, &found, &new, before) && is_feasible(route, inputs.sources, near) {
        Some(new)
    } else {
        found
    }
}

/// Whether a candidate comes before the one found before, if there is one.
#[inline(always)]
fn is_first<E: Table<RouteKey, Entry>>(
    entries: &E,
    found: &Option<Candidate>,
    new: &Candidate,
    before: Option<Peer>,
) -> bool
    requires found { IfSome found.now (λ old. old.place < length (E.entries entries.now)) }
    requires new { new.now.place < length (E.entries entries.now) }
    ensures { result ≡ option_map_or (λ old. is_lesser_rank (rank_at (E.entries entries.now) before new.now.metric new.now.place) (rank_at (E.entries entries.now) before old.metric old.place)) found.now true }
{
    match found {
        Some(old) => comes_before(entries, new, old, before),
        None => true,
    }
}

/// Whether a candidate comes before another one. Their metrics mostly differ, and then no rank is
/// made from the table.
#[inline(always)]
fn comes_before<E: Table<RouteKey, Entry>>(
    entries: &E,
    one: &Candidate,
    other: &Candidate,
    before: Option<Peer>,
) -> bool
    requires one { one.now.place < length (E.entries entries.now) }
    requires other { other.now.place < length (E.entries entries.now) }
    ensures { result ≡ is_lesser_rank (rank_at (E.entries entries.now) before one.now.metric one.now.place) (rank_at (E.entries entries.now) before other.now.metric other.now.place) }
{
    match one.metric.cmp(&other.metric) {
        Ordering::Less => true,
        Ordering::Greater => false,
        Ordering::Equal => match (
            rank_at(entries, one, before),
            rank_at(entries, other, before),
        ) {
            (Some(one), Some(other)) => one.cmp(&other).is_lt(),
            _ => true,
        },
    }
}

/// The rank of a candidate.
fn rank_at<E: Table<RouteKey, Entry>>(
    entries: &E,
    candidate: &Candidate,
    before: Option<Peer>,
) -> Option<Rank>
    ensures { result ≡ rank_at (E.entries entries.now) before candidate.now.metric candidate.now.place }
{
    let peer = entries.at(candidate.place)?.0.peer;
    let is_change = is_change(before, peer);
    Some(Rank {
        metric: candidate.metric,
        is_change,
        peer,
    })
}

/// The metric of a route that is a candidate: it is feasible and its metric is finite.
#[inline(always)]
fn candidate_metric<T: Table<Source, SourceEntry>, C: Costs>(
    route: &(RouteKey, Entry),
    sources: &SourcesOver<T>,
    costs: &C,
    near: &mut usize,
) -> Option<Metric>
    ensures { result ≡ (if is_candidate sources.now (C.cost_of costs.now) route.now then Some (route_metric (C.cost_of costs.now) route.now) else None) }
{
    let metric = finite_metric(route, costs)?;
    if is_feasible(route, sources, near) {
        Some(metric)
    } else {
        None
    }
}

/// The metric of a route, if it is finite.
#[inline(always)]
fn finite_metric<C: Costs>(route: &(RouteKey, Entry), costs: &C) -> Option<Metric>
    ensures { result ≡ (if nat_lt (route_metric (C.cost_of costs.now) route.now) infinity then Some (route_metric (C.cost_of costs.now) route.now) else None) }
{
    let advertised = route.1.distance.metric;
    if !advertised.is_finite() {
        // Whatever its cost is: the neighbour need not be looked up.
        return None;
    }
    if_finite(advertised.add(costs.cost(&route.0.peer)))
}

/// The same of the routes of a prefix, one after another.
#[inline(always)]
fn metric_in_turn<C: Costs>(route: &(RouteKey, Entry), costs: &C) -> Option<Metric>
    ensures { result ≡ (if nat_lt (route_metric (C.cost_of costs.now) route.now) infinity then Some (route_metric (C.cost_of costs.now) route.now) else None) }
{
    let advertised = route.1.distance.metric;
    if !advertised.is_finite() {
        return None;
    }
    if_finite(advertised.add(costs.cost_in_turn(&route.0.peer)))
}

/// The metric, if it is finite.
#[inline(always)]
fn if_finite(metric: Metric) -> Option<Metric>
    ensures { result ≡ (if nat_lt metric infinity then Some metric else None) }
{
    if metric.is_finite() {
        Some(metric)
    } else {
        None
    }
}

/// Whether the route is feasible against the source table (RFC 8966, section 3.5.1).
#[inline(always)]
fn is_feasible<T: Table<Source, SourceEntry>>(
    route: &(RouteKey, Entry),
    sources: &SourcesOver<T>,
    near: &mut usize,
) -> bool
    ensures { result ≡ is_feasible_route sources.now route.now }
{
    let source = Source {
        prefix: route.0.prefix,
        router: route.1.router,
    };
    sources.feasible_near(source, route.1.distance, near)
}

/// Whether the route takes the place of the selection of another neighbour: it is a candidate, and
/// its metric is lesser, if there is a selection. Metrics are compared first, so the source of most
/// routes is not looked up. It is compiled into its caller: as a call it had a copy made of the
/// route and of the selection.
#[inline(always)]
pub fn overtakes<E: Table<RouteKey, Entry>, T: Table<Source, SourceEntry>, C: Costs>(
    inputs: &ChoiceInputs<'_, E, T, C>,
    route: &(RouteKey, Entry),
    selection: &Option<Selection>,
    near: &mut usize,
) -> bool
    ensures { result ≡ overtakes inputs.now.sources.now (C.cost_of inputs.now.costs.now) selection.now route.now }
{
    let Some(metric) = finite_metric(route, inputs.costs) else {
        return false;
    };
    is_lesser(metric, selection, inputs.costs) && is_feasible(route, inputs.sources, near)
}

/// Whether the metric is lesser than that of the selection, if there is one.
#[inline(always)]
fn is_lesser<C: Costs>(metric: Metric, selection: &Option<Selection>, costs: &C) -> bool
    ensures { result ≡ option_map_or (λ s. is_lt (nat_cmp metric (selection_metric (C.cost_of costs.now) s))) selection.now true }
{
    match selection {
        Some(selected) => {
            let advertised = selected.entry.distance.metric;
            let other = advertised.add(costs.cost(&selected.peer));
            metric.cmp(&other).is_lt()
        }
        None => true,
    }
}

/// Whether the neighbour is another than the one selected before.
fn is_change(before: Option<Peer>, peer: Peer) -> bool
    ensures { result ≡ is_change before peer }
{
    match before {
        Some(before) => !peer.cmp(&before).is_eq(),
        None => true,
    }
}
