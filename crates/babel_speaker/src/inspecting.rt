//! What a speaker reports of its tables (RFC 8966, section 3.2). No call here changes it.

ghost use Rattle.std.specs.Prelude.{◌≡◌, ◌≤◌, length, slice_get};
ghost use Rattle.babel_link.specs.Neighbours.{max_neighbours};
ghost use Rattle.babel_state.specs.Limits.{most_interfaces, most_requests};
ghost use Rattle.babel_state.specs.State.{interface_at, prefixes_in};
ghost use Rattle.babel_speaker.specs.Inspecting.{reported_neighbours};

use crate::speaker::Speaker;
use crate::tables::Prefixes;
use babel_link::Link;
use babel_state::{InterfaceEntry, PendingRequest};
use babel_value::{Metric, Peer, RouterId, Seqno, Source};

/// A neighbour, as a speaker reports it (RFC 8966, section 3.2.4).
#[derive(Clone, Copy, Debug)]
pub struct Neighbour {
    /// The interface over which it is heard, and its address.
    pub peer: Peer,
    /// Both histories of its Hellos with their deadlines, and the cost of sending to it.
    pub link: Link,
    /// The cost of receiving from it, as of now.
    pub rxcost: Metric,
    /// The cost of the link to it, as of now (RFC 8966, section 3.4.3).
    pub cost: Metric,
}

impl Speaker {
    /// The own router-id (RFC 8966, section 4.1.3).
    pub fn router_id(&self) -> RouterId
        ensures { result ≡ self.now.state.router }
    {
        self.core.router
    }

    /// The own seqno (RFC 8966, section 3.2.2).
    pub fn seqno(&self) -> Seqno
        ensures { result ≡ self.now.state.seqno }
    {
        self.core.seqno
    }

    /// The interface of the number, with its cost, its addresses and its timers (RFC 8966, section
    /// 3.2.3).
    pub fn interface(&self, iface: u8) -> Option<InterfaceEntry>
        ensures { result ≡ interface_at iface self.now.state }
    {
        self.core.interfaces.get(iface)
    }

    /// How many interfaces there are, at most 8. Their numbers begin at 0.
    pub fn interface_count(&self) -> u8
        ensures count { result ≡ length self.now.state.interfaces }
        ensures few { result ≤ most_interfaces }
    {
        self.core.interfaces.len()
    }

    /// The neighbour that exactly `place` others come before (RFC 8966, section 3.2.4).
    #[tactic(auto, unfolding(crate::specs::Inspecting::reported_neighbours))]
    pub fn neighbour(&self, place: usize) -> Option<Neighbour>
        ensures { result ≡ slice_get (reported_neighbours self.now.state) place }
    {
        let core = &self.core;
        let (peer, link) = *core.neighbours.as_slice().get(place)?;
        Some(Neighbour {
            peer,
            link,
            rxcost: core.rxcost(&peer),
            cost: core.cost(&peer),
        })
    }

    /// How many neighbours there are, at most 64.
    pub fn neighbour_count(&self) -> usize
        ensures count { result ≡ length self.now.state.neighbours }
        ensures few { result ≤ max_neighbours }
    {
        self.core.neighbours.as_slice().len()
    }

    /// The prefixes that the speaker announces itself, at most 64, in ascending order.
    pub fn prefixes(&self) -> Prefixes<'_>
        ensures { result ≡ prefixes_in self.now.state.announced }
    {
        self.core.announced.prefixes()
    }

    /// The pending request for a seqno whose source exactly `place` others come before (RFC 8966,
    /// section 3.2.7).
    pub fn request(&self, place: usize) -> Option<(Source, PendingRequest)>
        ensures { result ≡ slice_get self.now.state.requests place }
    {
        self.core.requests.at(place)
    }

    /// How many requests for a seqno are pending, at most 64.
    pub fn request_count(&self) -> usize
        ensures count { result ≡ length self.now.state.requests }
        ensures few { result ≤ most_requests }
    {
        self.core.requests.len()
    }
}
