//! What the route table keeps, and by which keys (RFC 8966, section 3.2.6).

ghost use Rattle.babel_choice.specs.RouteKeys.{route_cmp, route_total, route_exact};

use babel_table::{Due, Key, Steps};
use babel_value::{Addr, Distance, Peer, Prefix, RouterId, Source};
use std::cmp::Ordering;
use std::sync::ledger::Ledger;

/// A prefix, and the neighbour that advertised it. Keys are ordered by prefix, then neighbour.
#[derive(Clone, Copy, PartialEq, Eq, PartialOrd, Ord)]
pub struct RouteKey {
    /// The prefix.
    pub prefix: Prefix,
    /// The neighbour that advertised it.
    pub peer: Peer,
}

impl Key for RouteKey {
    ghost order = { route_cmp };

    ghost total = { route_total };

    ghost exact = { route_exact };

    // The derived comparison is a call of its own in a long walk.
    #[inline(always)]
    fn compare<L: Ledger>(&self, other: &RouteKey, steps: &mut Steps<L>) -> Ordering {
        steps.tick();
        let prefixes = self.prefix.cmp(&other.prefix);
        if prefixes.is_ne() {
            return prefixes;
        }
        self.peer.cmp(&other.peer)
    }
}

/// An update with a finite metric (RFC 8966, section 4.6.9).
#[derive(Clone, Copy)]
pub struct ReceivedUpdate {
    /// The neighbour that sent it.
    pub peer: Peer,
    /// Its prefix and its router-id.
    pub source: Source,
    /// Its next hop.
    pub next_hop: Addr,
    /// Its seqno, and the metric that the neighbour advertised.
    pub distance: Distance,
    /// The time until the neighbour's next update, in centiseconds.
    pub interval: u16,
}

/// A neighbour's route to a prefix, as advertised.
#[derive(Clone, Copy, Debug, PartialEq, Eq)]
pub struct Entry {
    /// The router that announces the prefix.
    pub router: RouterId,
    /// The sequence number, and the metric that the neighbour advertised: infinity after a
    /// retraction.
    pub distance: Distance,
    /// The address to which packets are sent.
    pub next_hop: Addr,
    /// The time between the neighbour's updates, in centiseconds.
    pub interval: u16,
    /// The moment, in centiseconds, from which on the entry is too old.
    pub deadline: u64,
}

impl Due for Entry {
    ghost due_of = { λ entry. entry.deadline };

    fn due(&self) -> u64 {
        self.deadline
    }
}

/// The route that is selected for a prefix, as it was when it was selected.
#[derive(Clone, Copy, Debug, PartialEq, Eq)]
pub struct Selection {
    /// The neighbour that advertised it.
    pub peer: Peer,
    /// The neighbour's entry.
    pub entry: Entry,
}
