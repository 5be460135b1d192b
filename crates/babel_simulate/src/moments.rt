//! A network at a moment: the ways that the next hops lead, and the shortest ways, which a plain
//! search finds.

use crate::hops::Hops;
use crate::links::{Condition, LinkState, Links};
use crate::shortest::{Edge, INFINITY, shortest_ways};
use babel_outcome::{Counts, HopKind, Quality, Route, RouteKind};
use babel_topology::NextHop;
use std::alloc::{AllocError, Global};

/// A node at a moment.
#[derive(Clone, Copy)]
pub(crate) struct NodeState {
    /// The speaker of the network that runs it.
    pub(crate) speaker: usize,
    /// Whether it sends and receives. A node does from its first tick on, and not after a crash.
    pub(crate) condition: Condition,
    /// When it is due.
    pub(crate) wake: u64,
    /// From when on it may request seqnos again.
    pub(crate) next_request: u64,
    /// The count of the changes of its routes when its next hops were looked at.
    pub(crate) version: Option<u64>,
    /// What happened at it.
    pub(crate) counts: Counts,
}

/// A network at a moment.
#[derive(Drop)]
pub(crate) struct Moment {
    /// The nodes.
    pub(crate) nodes: Vec<NodeState>,
    /// The links.
    pub(crate) links: Links,
    /// The next hops.
    pub(crate) hops: Hops,
}

/// Where the way over the next hops leads.
#[derive(Clone, Copy)]
pub(crate) enum Walk {
    /// To a node that announces the prefix, at this cost.
    Arrives(u64),
    /// To a node without a route, or over a link or a node that is down.
    Ends,
    /// Back to a node that it passed.
    ComesBack,
}

impl Moment {
    /// No nodes, links or next hops.
    pub(crate) fn new(alloc: Global) -> Moment {
        Moment {
            nodes: Vec::new(alloc),
            links: Links::new(alloc),
            hops: Hops::new(alloc),
        }
    }

    /// Whether the node sends and receives.
    pub(crate) fn is_up(&self, node: usize) -> bool {
        match self.nodes.get(node) {
            Some(state) => state.condition.is_up(),
            None => false,
        }
    }

    /// Follows the next hops from the node.
    pub(crate) fn walk(&self, node: usize, prefix: usize) -> Walk {
        let mut at = node;
        let mut cost = 0u64;
        for _ in 0..=self.nodes.len() {
            if !self.is_up(at) {
                return Walk::Ends;
            }
            if self.hops.announces(at, prefix) {
                return Walk::Arrives(cost);
            }
            let NextHop::Via(next) = self.hops.get(at, prefix) else {
                return Walk::Ends;
            };
            match self.links.between(at, next) {
                Some(link) => cost = cost.saturating_add(u64::from(link.cost)),
                None => return Walk::Ends,
            }
            at = next;
        }
        Walk::ComesBack
    }

    /// Whether the next hops lead back to a node that they passed, whatever is down on the way.
    pub(crate) fn kind_of(&self, node: usize, prefix: usize) -> HopKind {
        let mut at = node;
        for _ in 0..=self.nodes.len() {
            let NextHop::Via(next) = self.hops.get(at, prefix) else {
                return HopKind::Onward;
            };
            at = next;
        }
        HopKind::Loop
    }

    /// The cost of a shortest way from each node to one that announces the prefix. Without a way it
    /// is 65535.
    pub(crate) fn distances(&self, alloc: Global, prefix: usize) -> Result<Vec<u64>, AllocError> {
        let origins = self.origins(alloc, prefix)?;
        let edges = self.edges(alloc)?;
        shortest_ways(alloc, &origins, &edges)
    }

    /// For each node whether it announces the prefix.
    fn origins(&self, alloc: Global, prefix: usize) -> Result<Vec<bool>, AllocError> {
        let mut origins = Vec::with_capacity(alloc, self.nodes.len())?;
        for node in 0..self.nodes.len() {
            origins.push(self.is_up(node) && self.hops.announces(node, prefix))?;
        }
        Ok(origins)
    }

    /// The links over which datagrams get.
    fn edges(&self, alloc: Global) -> Result<Vec<Edge>, AllocError> {
        let mut edges = Vec::with_capacity(alloc, self.links.states().len())?;
        for state in self.links.states() {
            if self.carries(state) {
                edges.push(Edge {
                    a: state.link.a.node,
                    b: state.link.b.node,
                    cost: state.link.cost,
                })?;
            }
        }
        Ok(edges)
    }

    /// Whether datagrams get over the link.
    fn carries(&self, state: &LinkState) -> bool {
        state.condition.is_up()
            && state.link.loss < 100
            && self.is_up(state.link.a.node)
            && self.is_up(state.link.b.node)
    }

    /// The node's way to the prefix, with the cost of a shortest one.
    pub(crate) fn route(&self, node: usize, prefix: usize, distances: &[u64]) -> Route {
        let shortest = match distances.get(node) {
            Some(distance) if *distance < INFINITY => Some(*distance),
            _ => None,
        };
        let walk = self.walk(node, prefix);
        Route {
            node,
            prefix,
            hop: self.hops.get(node, prefix),
            cost: match walk {
                Walk::Arrives(cost) => Some(cost),
                _ => None,
            },
            shortest,
            kind: self.route_kind(node, prefix, walk, shortest),
        }
    }

    fn route_kind(
        &self,
        node: usize,
        prefix: usize,
        walk: Walk,
        shortest: Option<u64>,
    ) -> RouteKind {
        if !self.is_up(node) {
            return RouteKind::Down;
        }
        if self.hops.announces(node, prefix) {
            return RouteKind::Own;
        }
        match walk {
            _ if matches!(self.hops.get(node, prefix), NextHop::Unreachable) => match shortest {
                Some(_) => RouteKind::Missing,
                None => RouteKind::Unreachable,
            },
            Walk::Arrives(cost) if Some(cost) == shortest => RouteKind::Shortest,
            Walk::Arrives(_) => RouteKind::Longer,
            Walk::Ends => RouteKind::Broken,
            Walk::ComesBack => RouteKind::Loop,
        }
    }

    /// For each of so many prefixes the costs of the shortest ways.
    pub(crate) fn all_distances(
        &self,
        alloc: Global,
        prefixes: usize,
    ) -> Result<Vec<Vec<u64>>, AllocError> {
        let mut all = Vec::with_capacity(alloc, prefixes)?;
        for prefix in 0..prefixes {
            all.push(self.distances(alloc, prefix)?)?;
        }
        Ok(all)
    }

    /// Adds the ways of the node to each prefix.
    pub(crate) fn add_routes(
        &self,
        node: usize,
        distances: &[Vec<u64>],
        routes: &mut Vec<Route>,
    ) -> Result<(), AllocError> {
        for (prefix, distances) in distances.iter().enumerate() {
            routes.push(self.route(node, prefix, distances))?;
        }
        Ok(())
    }

    /// What the ways of all nodes to so many prefixes are worth. Adds those that are not shortest.
    pub(crate) fn quality(
        &self,
        alloc: Global,
        prefixes: usize,
        not_shortest: &mut Vec<Route>,
    ) -> Result<Quality, AllocError> {
        let mut quality = Quality::default();
        for prefix in 0..prefixes {
            let distances = self.distances(alloc, prefix)?;
            self.add_qualities(prefix, &distances, &mut quality, not_shortest)?;
        }
        Ok(quality)
    }

    /// Adds what the ways of all nodes to the prefix are worth.
    fn add_qualities(
        &self,
        prefix: usize,
        distances: &[u64],
        quality: &mut Quality,
        not_shortest: &mut Vec<Route>,
    ) -> Result<(), AllocError> {
        for node in 0..self.nodes.len() {
            let route = self.route(node, prefix, distances);
            add_kind(quality, route.kind);
            if is_not_shortest(route.kind) {
                not_shortest.push(route)?;
            }
        }
        Ok(())
    }
}

/// Whether a way of this kind is longer, missing, broken or a loop.
fn is_not_shortest(kind: RouteKind) -> bool {
    matches!(
        kind,
        RouteKind::Longer | RouteKind::Missing | RouteKind::Broken | RouteKind::Loop
    )
}

fn add_kind(quality: &mut Quality, kind: RouteKind) {
    let count = match kind {
        RouteKind::Own | RouteKind::Down => return,
        RouteKind::Shortest => &mut quality.shortest,
        RouteKind::Longer => &mut quality.longer,
        RouteKind::Missing => &mut quality.missing,
        RouteKind::Unreachable => &mut quality.unreachable,
        RouteKind::Broken => &mut quality.broken,
        RouteKind::Loop => &mut quality.loops,
    };
    *count = count.saturating_add(1);
}
