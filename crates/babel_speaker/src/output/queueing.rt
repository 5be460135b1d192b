//! What is queued in several places: updates to all, and requests to the neighbours of routes.

ghost use Rattle.std.specs.Prelude.{◌≡◌, [], ◌∷◌, map, filter, not, IsFalse};
ghost use Rattle.std.specs.List.{range_with_len, list_any};
ghost use Rattle.babel_choice.specs.Choices.{routes_of};
ghost use Rattle.babel_sources.specs.Distances.{is_feasible};
ghost use Rattle.babel_sources.specs.Sources.{pair_of};
ghost use Rattle.babel_state.specs.Queueing.{queued};
ghost use Rattle.babel_state.specs.declared.items.Item.TheVariants.{Request, Update};
ghost use Rattle.babel_state.specs.Reselection.{update_to_all, update_to, request_items, is_unfeasible};
ghost use Rattle.babel_speaker.specs.Feasibility.{is_unfeasible_to};
ghost use Rattle.babel_speaker.specs.Losses.{is_finite_route};
ghost use Rattle.babel_speaker.specs.Reaching.{reachable_of};

use crate::input::updates::is_feasible;
use crate::tables::{Announced, PendingItems, Reachable, SeqnoRequest};
use babel_choice::{Cursor, Entry, RouteKey};
use babel_route::Routes;
use babel_sources::Sources;
use babel_state::{Item, Target};
use babel_value::{Distance, Peer, Prefix, Source};

/// Queues an update of the prefix to all on each of the interfaces.
#[tactic(auto, unfolding(babel_state::specs::Queueing::queued))]
pub fn queue_updates_to_all(pending: &mut PendingItems, interfaces: u8, prefix: Prefix)
    ensures { pending.new ≡ queued (map (update_to_all prefix) (range_with_len 0 interfaces)) pending.old }
{
    pending.make_room(usize::from(interfaces));
    for iface in 0..interfaces {
        queue_update(pending, Target { iface, to: None }, prefix);
    }
}

/// Whether the route has a finite metric and isn't feasible (RFC 8966, section 3.5.1).
pub fn is_unfeasible(route: &(RouteKey, Entry), sources: &Sources) -> bool
    ensures { result ≡ is_unfeasible sources.now route.now }
{
    let mut nowhere = usize::MAX;
    is_unfeasible_near(route, sources, &mut nowhere)
}

/// The same. The search for the source begins near an index.
#[inline(always)]
pub fn is_unfeasible_near(route: &(RouteKey, Entry), sources: &Sources, near: &mut usize) -> bool
    ensures { result ≡ is_unfeasible sources.now route.now }
{
    let source = Source {
        prefix: route.0.prefix,
        router: route.1.router,
    };
    !sources.feasible_near(source, route.1.distance, near)
}

/// Whether an update for the source would be unfeasible. The search for it begins near an index.
#[inline(never)]
fn is_other_unfeasible(
    source: &Source,
    distance: Distance,
    sources: &Sources,
    near: &mut usize,
) -> bool
    ensures { result ≡ not (is_feasible (pair_of source.now sources.now) distance) }
{
    !sources.feasible_near(*source, distance, near)
}

/// Whether a route to the prefix of the source, which has this pair, is unfeasible. If the route is
/// of another router, the search for its source begins near the index.
#[inline(always)]
#[tactic(auto, using(crate::proofs::Feasibility::same_unfeasible))]
fn is_unfeasible_to(
    source: &Source,
    pair: &Option<Distance>,
    route: &(RouteKey, Entry),
    sources: &Sources,
    near: &mut usize,
) -> bool
    requires { pair.now ≡ pair_of source.now sources.now }
    ensures { result ≡ is_unfeasible_to source.now.prefix sources.now route.now }
{
    let (router, distance) = (route.1.router, route.1.distance);
    if !router.cmp(&source.router).is_eq() {
        let other = Source {
            prefix: source.prefix,
            router,
        };
        return is_other_unfeasible(&other, distance, sources, near);
    }
    !is_feasible_by(pair, &distance)
}

/// Whether an update is feasible against the pair of its source, if that has one.
#[inline(always)]
fn is_feasible_by(pair: &Option<Distance>, update: &Distance) -> bool
    ensures { result ≡ is_feasible pair.now update.now }
{
    match pair {
        Some(pair) => is_feasible(pair, update),
        None => true,
    }
}

/// Whether a route to the prefix is unfeasible. The searches begin at the cursor, which goes to the
/// first route of the prefix.
pub fn has_unfeasible(
    routes: &Routes,
    sources: &Sources,
    prefix: &Prefix,
    cursor: &mut Cursor,
) -> bool
    ensures { result ≡ list_any (is_unfeasible sources.now) (routes_of prefix.now routes.now.entries) }
{
    for route in routes.routes_of_near(prefix, &mut cursor.entry) {
        if is_unfeasible_near(&route, sources, &mut cursor.source) {
            return true;
        }
    }
    false
}

/// Whether a route to the prefix has a finite metric. The search begins at the index, which goes to
/// the first route of the prefix if one has, or else to the one after them.
pub fn has_finite(routes: &Routes, prefix: &Prefix, near: &mut usize) -> bool
    ensures { result ≡ list_any is_finite_route (routes_of prefix.now routes.now.entries) }
{
    let mut passed: usize = 0;
    for route in routes.routes_of_near(prefix, near) {
        if route.1.distance.metric.is_finite() {
            return true;
        }
        passed = passed.wrapping_add(1);
    }
    *near = near.wrapping_add(passed);
    false
}

/// Queues a request to the neighbour of each unfeasible route to the prefix of the source, which
/// has this pair. Returns whether there is one. The routes of a prefix are mostly of one router, so
/// the pair is that of most. The searches begin at the cursor, which goes to the next prefix.
#[inline(always)]
#[tactic(auto, unfolding(babel_state::specs::Queueing::queued), using(crate::proofs::Feasibility::unfeasible_of, crate::proofs::Feasibility::any_unfeasible_of))]
pub fn queue_requests_to_unfeasible(
    pending: &mut PendingItems,
    routes: &Routes,
    sources: &Sources,
    request: &SeqnoRequest,
    pair: &Option<Distance>,
    cursor: &mut Cursor,
) -> bool
    requires { pair.now ≡ pair_of request.now.source sources.now }
    ensures items { pending.new ≡ queued (request_items request.now.source request.now.seqno request.now.hops (map (λ r. r.0.peer) (filter (is_unfeasible sources.now) (routes_of request.now.source.prefix routes.now.entries)))) pending.old }
    ensures found { result ≡ list_any (is_unfeasible sources.now) (routes_of request.now.source.prefix routes.now.entries) }
    ensures none { IsFalse result → pending.new ≡ pending.old }
{
    let mut found = false;
    let mut passed: usize = 0;
    for route in routes.routes_of_near(&request.source.prefix, &mut cursor.entry) {
        passed = passed.wrapping_add(1);
        let near = &mut cursor.source;
        if is_unfeasible_to(&request.source, pair, &route, sources, near) {
            queue_request(pending, route.0.peer, request);
            found = true;
        }
    }
    // The routes and the source of the next prefix are mostly the next ones.
    cursor.entry = cursor.entry.wrapping_add(passed);
    cursor.source = cursor.source.wrapping_add(1);
    found
}

/// Queues a request to the neighbour. It is written to its place in the ring if there is one.
#[inline(always)]
fn queue_request(pending: &mut PendingItems, peer: Peer, request: &SeqnoRequest)
    ensures { pending.new ≡ queued (Request peer request.now.source request.now.seqno request.now.hops ∷ []) pending.old }
{
    let item = request_item(peer, request);
    if !pending.push_to_place(item) {
        pending.push(request_item(peer, request));
    }
}

/// The request to the neighbour.
#[inline(always)]
fn request_item(peer: Peer, request: &SeqnoRequest) -> Item
    ensures { result ≡ Request peer request.now.source request.now.seqno request.now.hops }
{
    Item::Request {
        peer,
        source: request.source,
        seqno: request.seqno,
        hops: request.hops,
    }
}

/// Queues an update of the prefix. It is written to its place in the ring if there is one, and no
/// other copy of it is made.
#[inline(always)]
fn queue_update(pending: &mut PendingItems, target: Target, prefix: Prefix)
    ensures { pending.new ≡ queued (Update target prefix ∷ []) pending.old }
{
    if !pending.push_to_place(Item::Update { target, prefix }) {
        pending.push(Item::Update { target, prefix });
    }
}

/// Queues an update of each prefix that is announced or selected to one neighbour.
#[tactic(auto, unfolding(babel_state::specs::Queueing::queued))]
pub fn queue_updates_of(
    pending: &mut PendingItems,
    announced: &Announced,
    routes: &Routes,
    peer: &Peer,
)
    ensures { pending.new ≡ queued (map (update_to peer.now) (reachable_of announced.now routes.now.selections)) pending.old }
{
    let target = Target {
        iface: peer.iface,
        to: Some(peer.addr),
    };
    let mut walk = Reachable::new(announced, routes);
    pending.make_room(walk.at_least());
    while let Some(prefix) = walk.next() {
        pending.push_update(&target, prefix);
        // A walk over selections alone is shorter.
        if let Some(rest) = walk.rest() {
            pending.push_updates(&target, rest);
            return;
        }
    }
}
