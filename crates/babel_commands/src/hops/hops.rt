//! The next hops that were printed last.

ghost use Rattle.std.specs.Prelude.{◌+◌, ◌≤◌, length};
ghost use Rattle.babel_value.specs.Lines.{line_room};

use crate::hops::networks::{Hop, Runs};
use babel_choice::Selection;
use babel_state::Config;
use babel_text::LineFault;
use babel_value::{Addr, Line, Peer, Prefix, RouterId};
use indexmap::IndexSet;
use std::alloc::{AllocError, Global};
use std::cmp::Ordering;
use std::io::Write;

/// What is printed of a selected route.
#[derive(Clone, Copy, PartialEq, Eq)]
struct Printed {
    /// The router that the route leads over.
    hop: Hop,
    /// The router that announces the prefix.
    router: RouterId,
}

/// What the next hop of a selected route depends on.
#[derive(Clone, Copy)]
struct Route {
    /// The neighbour that the route leads over.
    peer: Peer,
    /// The next hop that the neighbour advertised.
    next_hop: Addr,
    /// The router that announces the prefix.
    router: RouterId,
}

/// What is kept of a node and a prefix.
#[derive(Clone, Copy)]
struct Kept {
    /// The selected route after the node's last event. A new speaker has none.
    route: Option<Route>,
    /// Whether the event changed the route.
    is_changed: bool,
    /// The next hop that was printed last.
    printed: Option<Printed>,
}

/// For each node and then each prefix the next hop that was printed last.
#[derive(Drop)]
pub(crate) struct Hops {
    /// The prefixes, in the order in which they are listed first.
    prefixes: Vec<Prefix>,
    /// The same in ascending order, each with its index in `prefixes`.
    ascending: Vec<(Prefix, usize)>,
    /// What is kept of each node, and then of each prefix, by its index in `prefixes`.
    nodes: Vec<Vec<Kept>>,
}

impl Hops {
    /// No next hop for the distinct prefixes of the configurations, in the order in which they are
    /// listed first.
    pub(crate) fn new(alloc: Global, configs: &[Config]) -> Result<Hops, AllocError> {
        let prefixes = prefixes_of(alloc, configs)?;
        let ascending = ascending_of(alloc, prefixes.as_slice())?;
        let mut nodes = Vec::with_capacity(alloc, configs.len())?;
        for _ in configs {
            nodes.push(no_hops(alloc, prefixes.len())?)?;
        }
        Ok(Hops {
            prefixes,
            ascending,
            nodes,
        })
    }

    /// Writes each next hop of the node of the event of this number that changed in the event. It
    /// is called after each event that may have changed a selected route.
    pub(crate) fn write_changes<N: Runs, W: Write>(
        &mut self,
        number: usize,
        node: usize,
        network: &N,
        out: &mut W,
    ) -> Result<(), LineFault> {
        let Some(hops) = self.nodes.get_mut(node) else {
            return Ok(());
        };
        if !see_routes(network, node, self.ascending.as_slice(), hops) {
            return Ok(());
        }
        for (prefix, kept) in self.prefixes.iter().zip(hops.iter_mut()) {
            if kept.is_changed {
                kept.is_changed = false;
                let printed = printed_of(network, node, prefix);
                if printed != kept.printed {
                    kept.printed = printed;
                    write_hop(number, node, prefix, printed, out)?;
                }
            }
        }
        Ok(())
    }
}

/// The distinct prefixes of the configurations, in the order in which they are listed first.
fn prefixes_of(alloc: Global, configs: &[Config]) -> Result<Vec<Prefix>, AllocError> {
    let mut distinct = IndexSet::new(alloc);
    for config in configs {
        for prefix in config.prefixes.as_slice() {
            distinct.insert(*prefix)?;
        }
    }
    let mut prefixes = Vec::with_capacity(alloc, distinct.len())?;
    for prefix in distinct.iter() {
        prefixes.push(*prefix)?;
    }
    Ok(prefixes)
}

/// The prefixes with their indices, in ascending order.
fn ascending_of(alloc: Global, prefixes: &[Prefix]) -> Result<Vec<(Prefix, usize)>, AllocError> {
    let mut ascending = Vec::with_capacity(alloc, prefixes.len())?;
    for (index, prefix) in prefixes.iter().enumerate() {
        ascending.push((*prefix, index))?;
    }
    ascending.sort_unstable();
    Ok(ascending)
}

fn no_hops(alloc: Global, prefixes: usize) -> Result<Vec<Kept>, AllocError> {
    let mut kept = Vec::with_capacity(alloc, prefixes)?;
    for _ in 0..prefixes {
        kept.push(Kept {
            route: None,
            is_changed: false,
            printed: None,
        })?;
    }
    Ok(kept)
}

/// Looks at all selected routes of the node, in one walk over them. Returns whether one changed.
fn see_routes<N: Runs>(
    network: &N,
    node: usize,
    ascending: &[(Prefix, usize)],
    kept: &mut [Kept],
) -> bool {
    let mut place = 0;
    let mut has_changed = false;
    for (prefix, index) in ascending {
        let route = next_route(network, node, prefix, &mut place);
        if let Some(kept) = kept.get_mut(*index) {
            if !is_same(&route, &kept.route) {
                kept.route = route;
                kept.is_changed = true;
                has_changed = true;
            }
        }
    }
    has_changed
}

/// Whether both are the same. The orders of neighbours and router-ids compare octets as numbers,
/// which is faster than `==`.
fn is_same(one: &Option<Route>, other: &Option<Route>) -> bool {
    match (one, other) {
        (None, None) => true,
        (Some(one), Some(other)) => {
            one.peer.cmp(&other.peer).is_eq()
                && one.router.cmp(&other.router).is_eq()
                && one.next_hop.cmp(&other.next_hop).is_eq()
        }
        _ => false,
    }
}

/// The node's selected route to the prefix, if `place` is no greater than its place among the
/// selections. The next greater prefix is then at `place` or after it.
fn next_route<N: Runs>(
    network: &N,
    node: usize,
    prefix: &Prefix,
    place: &mut usize,
) -> Option<Route> {
    for at in *place..usize::MAX {
        let (selected, Selection { peer, entry }) = network.selection_at(node, at)?;
        match selected.cmp(prefix) {
            Ordering::Less => {}
            Ordering::Equal => {
                *place = at + 1;
                return Some(Route {
                    peer,
                    next_hop: entry.next_hop,
                    router: entry.router,
                });
            }
            Ordering::Greater => return None,
        }
    }
    None
}

fn printed_of<N: Runs>(network: &N, node: usize, prefix: &Prefix) -> Option<Printed> {
    Some(Printed {
        hop: network.hop(node, prefix)?,
        router: network.router(node, prefix)?,
    })
}

/// Writes the line of a next hop. It is put together first, since an event may change many.
fn write_hop<W: Write>(
    number: usize,
    node: usize,
    prefix: &Prefix,
    printed: Option<Printed>,
    out: &mut W,
) -> Result<(), LineFault> {
    let mut line = Line::new();
    line.push_usize(number);
    line.push_str(" hop ");
    line.push_usize(node);
    line.push_str(" ");
    line.push_prefix(prefix);
    match printed {
        Some(printed) => push_printed(&mut line, &printed),
        None => line.push_str(" -> none\n"),
    }
    out.write_all(line.octets()).map_err(LineFault::of_writing)
}

/// Appends the next hop, with which the line ends.
fn push_printed(line: &mut Line, printed: &Printed)
    requires { length line.old + 150 ≤ line_room }
{
    line.push_str(" -> ");
    match printed.hop {
        Hop::Ours(node) => {
            line.push_usize(node);
            push_router(line, printed.router);
        }
        Hop::Foreign {
            neighbour,
            next_hop,
            node,
        } => {
            line.push_addr(&neighbour);
            push_router(line, printed.router);
            line.push_str(" next-hop ");
            line.push_addr(&next_hop);
            if let Some(node) = node {
                line.push_str(" node ");
                line.push_usize(node);
            }
        }
    }
    line.push_str("\n");
}

/// Appends the router that announces the prefix.
fn push_router(line: &mut Line, router: RouterId)
    requires { length line.old + 24 ≤ line_room }
    ensures { length line.new ≤ length line.old + 24 }
{
    line.push_str(" router ");
    line.push_router_id(router);
}
