//! To which neighbour a request for a seqno is forwarded (RFC 8966, section 3.8.1.2).

ghost use Rattle.std.specs.Prelude.{◌≡◌, Some, filter};
ghost use Rattle.std.specs.Option.{option_map_or};
ghost use Rattle.babel_choice.specs.Choices.{routes_of, is_feasible_route};
ghost use Rattle.babel_state.specs.SeqnoRequests.{satisfies, is_passable, first_peer, receiver};

use crate::output::queueing::is_unfeasible;
use babel_choice::{Entry, RouteKey};
use babel_route::Routes;
use babel_sources::Sources;
use babel_value::{Peer, Prefix, RouterId, Seqno};

/// Whether a route of this router-id and seqno satisfies the request: it is of another router, or
/// has no lesser seqno.
pub fn satisfies(
    router: &RouterId,
    seqno: Seqno,
    requested_router: &RouterId,
    requested: Seqno,
) -> bool
    ensures { result ≡ satisfies router.now seqno requested_router.now requested }
{
    !requested_router.cmp(router).is_eq() || !seqno.less(requested)
}

/// Whether a request may be forwarded to the route's neighbour: the route is finite, and its
/// neighbour isn't the one that asks.
fn is_passable(asker: &Peer, route: &(RouteKey, Entry)) -> bool
    ensures { result ≡ is_passable asker.now route.now }
{
    route.1.distance.metric.is_finite() && !route.0.peer.cmp(asker).is_eq()
}

/// The neighbour to which a request is forwarded: the least of those with a feasible route, or if
/// there is none, the least of all with a finite one (RFC 8966, section 3.8.1.2).
pub fn receiver(routes: &Routes, sources: &Sources, asker: &Peer, prefix: &Prefix) -> Option<Peer>
    ensures { result ≡ option_map_or Some (first_peer (filter (is_feasible_route sources.now) (filter (is_passable asker.now) (routes_of prefix.now routes.now.entries)))) (first_peer (filter (is_passable asker.now) (routes_of prefix.now routes.now.entries))) }
{
    let mut first = None;
    for route in routes.routes_of(prefix) {
        if is_passable(asker, &route) {
            let peer = route.0.peer;
            if !is_unfeasible(&route, sources) {
                return Some(peer);
            }
            if first.is_none() {
                first = Some(peer);
            }
        }
    }
    first
}
