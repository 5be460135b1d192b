//! Changes of all entries at once: by retractions, by the flush of a neighbour and by time.

ghost use Rattle.std.specs.Prelude.{◌≡◌};
ghost use Rattle.babel_choice.specs.Routes.{retracted_entry, retracted_from, kept_without, kept_without_each, is_from_any, expired_entry};

use crate::{Entry, RouteKey};
use babel_table::{Revised, Revision};
use babel_value::{Metric, Peer, hold_time};
use std::cell::Cell;

impl Entry {
    /// The entry after a retraction: its metric is infinite, and its hold time begins again.
    pub fn retracted(self, now: u64) -> Entry
        ensures { result ≡ retracted_entry now self }
    {
        let mut entry = self;
        entry.distance.metric = Metric::INFINITE;
        entry.deadline = now.saturating_add(hold_time(entry.interval));
        entry
    }
}

/// A retraction of all routes of a neighbour.
#[derive(Drop)]
pub struct Retraction {
    /// The moment of it, in centiseconds.
    pub now: u64,
    /// The neighbour.
    pub peer: Peer,
}

impl Revision<RouteKey, Entry> for Retraction {
    ghost revised = { λ retraction. retracted_from retraction.now retraction.peer };

    fn revise(&self, key: &RouteKey, entry: &Entry) -> Revised<Entry> {
        if key.peer.cmp(&self.peer).is_eq() {
            Revised::Changed(entry.retracted(self.now))
        } else {
            Revised::Kept
        }
    }
}

/// The flush of a neighbour.
#[derive(Drop)]
pub struct Flush {
    /// The neighbour.
    pub peer: Peer,
}

impl Revision<RouteKey, Entry> for Flush {
    ghost revised = { λ flush. kept_without flush.peer };

    fn revise(&self, key: &RouteKey, _entry: &Entry) -> Revised<Entry> {
        if key.peer.cmp(&self.peer).is_eq() {
            Revised::Removed
        } else {
            Revised::Kept
        }
    }
}

/// The flush of several neighbours.
#[derive(Drop)]
pub struct FlushEach<'a> {
    /// The neighbours.
    peers: &'a [Peer],
    /// The index after that of the neighbour that was found last. It only matters for speed: a
    /// search begins there, since the routes of a prefix are in the order of their neighbours.
    next: Cell<usize>,
}

impl<'a> FlushEach<'a> {
    /// The flush of these neighbours. If they ascend, a route of one is mostly found at once.
    pub fn new(peers: &'a [Peer]) -> FlushEach<'a>
        ensures { result.peers.now ≡ peers.now }
    {
        FlushEach {
            peers,
            next: Cell::new(0),
        }
    }

    /// Whether the route is of one of the neighbours.
    #[inline(always)]
    #[tactic(auto, using(crate::proofs::RevisionLemmas::from_one))]
    fn has(&self, key: &RouteKey) -> bool
        ensures { result ≡ is_from_any self.now.peers.now key.now }
    {
        let next = self.next.get();
        match self.peers.get(next) {
            Some(peer) if key.peer.cmp(peer).is_eq() => {
                self.next.set(next.wrapping_add(1));
                true
            }
            _ => self.search(key),
        }
    }

    /// The same by a search from the first neighbour on.
    #[inline(never)]
    fn search(&self, key: &RouteKey) -> bool
        ensures { result ≡ is_from_any self.now.peers.now key.now }
    {
        let mut left = self.peers;
        while let Some((peer, rest)) = left.split_first() {
            if key.peer.cmp(peer).is_eq() {
                self.next.set(self.peers.len().wrapping_sub(rest.len()));
                return true;
            }
            left = rest;
        }
        false
    }
}

impl<'a> Revision<RouteKey, Entry> for FlushEach<'a> {
    ghost revised = { λ flush. kept_without_each flush.peers.now };

    fn revise(&self, key: &RouteKey, _entry: &Entry) -> Revised<Entry> {
        if self.has(key) {
            Revised::Removed
        } else {
            Revised::Kept
        }
    }
}

/// The deadlines that are due at a moment.
#[derive(Drop)]
pub struct Expiry {
    /// The moment, in centiseconds.
    pub now: u64,
}

impl Revision<RouteKey, Entry> for Expiry {
    ghost revised = { λ expiry. expired_entry expiry.now };

    fn revise(&self, _key: &RouteKey, entry: &Entry) -> Revised<Entry> {
        if self.now < entry.deadline {
            return Revised::Kept;
        }
        if entry.distance.metric.is_finite() {
            Revised::Changed(entry.retracted(self.now))
        } else {
            Revised::Removed
        }
    }
}
