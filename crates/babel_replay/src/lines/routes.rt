//! The line of a route, and why it is used or not.

ghost use Rattle.std.specs.Prelude.{◌≡◌, ◌+◌, ◌≤◌, ◌++◌, length};
ghost use Rattle.babel_value.specs.Lines.{line_room};
ghost use Rattle.babel_replay.specs.Texts.{advertised_distance_text, advertised_text, hop_text, line, link_text, route_text, source_text, status_text, usage_text};

use crate::lines::parts::{push_distance, push_peer};
use babel_value::{Distance, Line, Metric, Peer, Prefix, RouterId};

/// Why a route is used or not, by the first of these that holds.
#[derive(Clone, Copy, PartialEq, Eq)]
pub enum RouteStatus {
    /// The speaker announces the prefix itself.
    Local,
    /// The route was retracted, or is too old.
    Infinite,
    /// The route isn't feasible (RFC 8966, section 3.5.1).
    Unfeasible,
    /// The metric over the link is infinite.
    Unreachable,
    /// The route is the selected one.
    Selected,
    /// The route could be selected, and another one is.
    Candidate,
}

/// A route of a prefix.
#[derive(Clone, Copy)]
pub struct RouteLine {
    /// The prefix.
    pub prefix: Prefix,
    /// The neighbour.
    pub peer: Peer,
    /// The router that announces the prefix.
    pub router: RouterId,
    /// The seqno and the metric that the neighbour advertised.
    pub advertised: Distance,
    /// The cost of the link.
    pub cost: Metric,
    /// The metric over the link.
    pub metric: Metric,
    /// The feasibility distance of the source.
    pub source: Option<Distance>,
    /// Why the route is used or not.
    pub status: RouteStatus,
}

/// The line of a route.
pub fn route_line(route: &RouteLine) -> Line
    ensures { result ≡ line (route_text route.now) }
{
    let mut line = Line::new();
    line.push_prefix(&route.prefix);
    line.push_str(" ");
    push_hop(&mut line, &route.peer, route.router, &route.advertised);
    line.push_str(" ");
    push_usage(&mut line, route);
    line.push_str("\n");
    line
}

/// Appends the neighbour, and what it advertised.
fn push_hop(line: &mut Line, peer: &Peer, router: RouterId, distance: &Distance)
    requires room { length line.old + 102 ≤ line_room }
    ensures text { line.new ≡ line.old ++ hop_text peer.now router distance.now }
    ensures short { length line.new ≤ length line.old + 102 }
{
    line.push_str("via ");
    push_peer(line, peer);
    line.push_str(" ");
    push_advertised(line, router, distance);
}

/// Appends what the neighbour advertised.
fn push_advertised(line: &mut Line, router: RouterId, distance: &Distance)
    requires room { length line.old + 52 ≤ line_room }
    ensures text { line.new ≡ line.old ++ advertised_text router distance.now }
    ensures short { length line.new ≤ length line.old + 52 }
{
    line.push_str("router ");
    line.push_router_id(router);
    line.push_str(" ");
    push_advertised_distance(line, distance);
}

/// Appends the seqno and the metric that the neighbour advertised.
fn push_advertised_distance(line: &mut Line, distance: &Distance)
    requires room { length line.old + 28 ≤ line_room }
    ensures text { line.new ≡ line.old ++ advertised_distance_text distance.now }
    ensures short { length line.new ≤ length line.old + 28 }
{
    line.push_fields(
        "seqno ",
        distance.seqno.0,
        " advertised ",
        distance.metric.0,
    );
}

/// Appends the link, and whether the route is used.
fn push_usage(line: &mut Line, route: &RouteLine)
    requires room { length line.old + 54 ≤ line_room }
    ensures text { line.new ≡ line.old ++ usage_text route.now.cost route.now.metric route.now.source route.now.status }
    ensures short { length line.new ≤ length line.old + 54 }
{
    push_link(line, route.cost, route.metric, &route.source);
    line.push_str(" ");
    line.push_str(status_name(route.status));
}

/// Appends the cost of the link, the metric over it, and the feasibility distance.
fn push_link(line: &mut Line, cost: Metric, metric: Metric, source: &Option<Distance>)
    requires room { length line.old + 42 ≤ line_room }
    ensures text { line.new ≡ line.old ++ link_text cost metric source.now }
    ensures short { length line.new ≤ length line.old + 42 }
{
    line.push_field("cost ", cost.0);
    line.push_field(" metric ", metric.0);
    line.push_str(" source ");
    push_source(line, source);
}

/// Appends the feasibility distance of a source, or `none`.
fn push_source(line: &mut Line, source: &Option<Distance>)
    requires room { length line.old + 11 ≤ line_room }
    ensures text { line.new ≡ line.old ++ source_text source.now }
    ensures short { length line.new ≤ length line.old + 11 }
{
    match source {
        Some(distance) => push_distance(line, distance),
        None => line.push_str("none"),
    }
}

/// Whether a route is used, or why not.
fn status_name(status: RouteStatus) -> &'static str
    ensures name { result.now ≡ status_text status }
    ensures short { length result.now ≤ 11 }
{
    match status {
        RouteStatus::Local => "local",
        RouteStatus::Infinite => "infinite",
        RouteStatus::Unfeasible => "unfeasible",
        RouteStatus::Unreachable => "unreachable",
        RouteStatus::Selected => "selected",
        RouteStatus::Candidate => "candidate",
    }
}
