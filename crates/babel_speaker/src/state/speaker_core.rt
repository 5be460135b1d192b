//! The state of a speaker, in tables that take their whole room when they are made.

ghost use Rattle.std.specs.Prelude.{◌≡◌};

use crate::tables::{Announced, Interfaces, PendingItems, RequestTable};
use babel_choice::{Cursor, Origin, Selection};
use babel_link::Neighbours;
use babel_route::Routes;
use babel_sources::Sources;
use babel_state::InterfaceEntry;
use babel_value::{Distance, Metric, Peer, Prefix, RouterId, Seqno, Source};
use std::marker::Model;

/// The state of a speaker. A clause sees it as the `State` that the steps are defined on.
#[derive(Drop)]
pub struct Core {
    /// The own router-id.
    pub router: RouterId,
    /// Whether entries of the source table are collected (RFC 8966, section 3.2.5).
    pub collects: bool,
    /// The own seqno.
    pub seqno: Seqno,
    /// How often the own seqno grew.
    pub raises: u64,
    /// The announced prefixes.
    pub announced: Announced,
    /// The interfaces (RFC 8966, section 3.2.3).
    pub interfaces: Interfaces,
    /// The neighbour table (RFC 8966, section 3.2.4).
    pub neighbours: Neighbours,
    /// The source table (RFC 8966, section 3.2.5).
    pub sources: Sources,
    /// The route table, and the selected routes (RFC 8966, section 3.2.6).
    pub routes: Routes,
    /// The pending seqno requests (RFC 8966, section 3.2.7).
    pub requests: RequestTable,
    /// The pending items, from the oldest on.
    pub pending: PendingItems,
    /// How many Updates were left out since the source table had no room.
    pub left_out: u64,
}

impl Model for Core {
    ghost use Rattle.babel_state.specs.State.{State};

    ghost Value = { State };

    ghost view = { λ c. record {
      router = c.router;
      collects = c.collects;
      seqno = c.seqno;
      raises = c.raises;
      announced = c.announced;
      interfaces = c.interfaces;
      neighbours = c.neighbours;
      sources = c.sources;
      routes = c.routes;
      requests = c.requests;
      pending = c.pending;
      left_out = c.left_out;
    } };
}

impl Core {
    ghost use Rattle.std.specs.Prelude.{◌≡◌, ◌≤◌, length};
    ghost use Rattle.babel_choice.specs.Origins.{is_own};
    ghost use Rattle.babel_state.specs.Limits.{most_pending};
    ghost use Rattle.babel_state.specs.State.{interface_at, announces, is_neighbour, cost_at, rxcost_at, pair_at, selected_at};
    ghost use Rattle.babel_state.specs.CurrentSelections.{AreRoutesInOrder};
    ghost use Rattle.babel_value.specs.declared.keys.Peer.{Peer};

    /// The routes are in the order of their keys. The call does nothing.
    pub fn routes_are_in_order(&self)
        ensures { AreRoutesInOrder self.now }
    {
        let _count = self.routes.len();
    }

    /// The interface of the number.
    pub(crate) fn interface(&self, iface: u8) -> Option<InterfaceEntry>
        ensures { result ≡ interface_at iface self.now }
    {
        self.interfaces.get(iface)
    }

    /// Whether the speaker announces the prefix itself.
    pub fn announces(&self, prefix: &Prefix) -> bool
        ensures { result ≡ announces prefix.now self.now }
    {
        self.announced.contains(prefix)
    }

    /// Who announces the prefix.
    pub(crate) fn origin(&self, prefix: &Prefix) -> Origin
        ensures { is_own result ≡ announces prefix.now self.now }
    {
        self.announced.origin(prefix)
    }

    /// Whether the peer is a neighbour.
    pub fn is_neighbour(&self, peer: &Peer) -> bool
        ensures { result ≡ is_neighbour peer.now self.now }
    {
        self.neighbours.is_known(peer)
    }

    /// The cost of receiving from the peer.
    pub fn rxcost(&self, peer: &Peer) -> Metric
        ensures { result ≡ rxcost_at self.now peer.now }
    {
        let nominal = self.interfaces.nominal_cost(peer.iface);
        self.neighbours.rxcost(*peer, nominal)
    }

    /// The cost of the link to the peer, as of now (RFC 8966, section 3.4.3).
    pub fn cost(&self, peer: &Peer) -> Metric
        ensures { result ≡ cost_at self.now peer.now }
    {
        let nominal = self.interfaces.nominal_cost(peer.iface);
        self.neighbours.cost_to(peer, nominal)
    }

    /// The feasibility distance of a source, if it has one (RFC 8966, section 3.2.5).
    pub fn pair(&self, source: &Source) -> Option<Distance>
        ensures { result ≡ pair_at source.now.prefix source.now.router self.now }
    {
        self.sources.pair(source)
    }

    /// The selected route of the prefix, as its last reselection left it (RFC 8966, section 3.6).
    pub fn selected(&self, prefix: &Prefix) -> Option<Selection>
        ensures { result ≡ selected_at prefix.now self.now }
    {
        match self.routes.selected(prefix) {
            Some((peer, entry)) => Some(Selection { peer, entry }),
            None => None,
        }
    }

    /// The same. The search begins at the index `near` of the selections, which becomes the one
    /// after the prefix, or that at which the prefix would be.
    #[inline]
    pub fn selected_near(&self, prefix: &Prefix, near: &mut usize) -> Option<Selection>
        ensures { result ≡ selected_at prefix.now self.now }
    {
        let mut cursor = Cursor::new();
        cursor.selection = *near;
        let selection = self.routes.selected_near(prefix, &mut cursor);
        *near = cursor.selection;
        selection
    }

    /// How many items are pending, at most 4,096.
    pub fn pending_count(&self) -> usize
        ensures count { result ≡ length self.now.pending.items }
        ensures few { result ≤ most_pending }
    {
        self.pending.len()
    }
}
