//! The costs of links, as route selection asks for them.

ghost use Rattle.std.specs.Prelude.{◌≡◌};
ghost use Rattle.babel_speaker.specs.Costs.{link_cost};

use crate::tables::Interfaces;
use babel_choice::Costs;
use babel_link::Neighbours;
use babel_value::{Metric, Peer};

/// The cost of the link to each neighbour, computed from the interface table and the neighbour
/// table (RFC 8966, section 3.4.3).
#[derive(Drop)]
pub struct LinkCosts<'a> {
    interfaces: &'a Interfaces,
    neighbours: &'a Neighbours,
}

impl<'a> LinkCosts<'a> {
    /// The costs by these tables.
    pub fn new(interfaces: &'a Interfaces, neighbours: &'a Neighbours) -> LinkCosts<'a>
        ensures interfaces { result.interfaces.now ≡ interfaces.now }
        ensures neighbours { result.neighbours.now ≡ neighbours.now }
    {
        LinkCosts {
            interfaces,
            neighbours,
        }
    }
}

impl<'a> Costs for LinkCosts<'a> {
    ghost cost_of = { λ c peer. link_cost c.interfaces.now c.neighbours.now peer };

    fn cost(&self, peer: &Peer) -> Metric {
        let nominal = self.interfaces.nominal_cost(peer.iface);
        // The call takes a copy, so that a route's key needn't be in memory before.
        self.neighbours.cost(*peer, nominal)
    }

    fn cost_in_turn(&self, peer: &Peer) -> Metric {
        let nominal = self.interfaces.nominal_cost(peer.iface);
        self.neighbours.cost_in_turn(peer, nominal)
    }
}

/// The cost of the link to one neighbour.
#[derive(Clone, Copy)]
pub struct KnownCost {
    /// The neighbour.
    pub peer: Peer,
    /// The cost of the link to it.
    pub cost: Metric,
}

/// The same costs. That of one neighbour's link was looked up before.
#[derive(Drop)]
pub struct KnownCosts<'a> {
    links: LinkCosts<'a>,
    known: &'a KnownCost,
    ghost is_known: { known.now.cost ≡ link_cost links.interfaces.now links.neighbours.now known.now.peer },
}

impl<'a> KnownCosts<'a> {
    /// The costs, one of which is this one.
    pub fn new(links: LinkCosts<'a>, known: &'a KnownCost) -> KnownCosts<'a>
        requires known { known.now.cost ≡ link_cost links.interfaces.now links.neighbours.now known.now.peer }
        ensures links { result.links ≡ links.entry }
    {
        KnownCosts { links, known }
    }
}

impl<'a> Costs for KnownCosts<'a> {
    ghost cost_of = { λ c peer. link_cost c.links.interfaces.now c.links.neighbours.now peer };

    #[inline(always)]
    fn cost(&self, peer: &Peer) -> Metric {
        if peer.cmp(&self.known.peer).is_eq() {
            return self.known.cost;
        }
        self.links.cost(peer)
    }

    #[inline(always)]
    fn cost_in_turn(&self, peer: &Peer) -> Metric {
        self.cost(peer)
    }
}

/// What a Hello or an IHU changed of all that selections depend on.
#[derive(Clone, Copy)]
pub enum LinkChange {
    /// Nothing.
    Nothing,
    /// The cost of the link to the neighbour alone.
    Cost,
    /// The neighbour's routes.
    Routes,
}
