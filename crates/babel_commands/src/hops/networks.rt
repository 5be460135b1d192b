//! The networks that run a scenario: one of our nodes alone, or one among routers of others.

use babel_choice::Selection;
use babel_config::{HeardDatagram, ScenarioEvent};
use babel_machine::{Event, StepFault};
use babel_mixed::{HearFault, Heard, MixedNetwork};
use babel_net::{Emitted, Network};
use babel_value::{Addr, Memory, Prefix, RouterId};

/// Why an event of a scenario is refused.
#[derive(Clone, Copy)]
pub enum EventFault {
    /// N1 to N7: an event of our nodes.
    Ours(StepFault),
    /// N8, N1, N3 and N6: a datagram of a router that is no node.
    Heard(HearFault),
}

impl EventFault {
    /// The code, from `N1` to `N8`.
    pub fn code(self) -> &'static str {
        match self {
            EventFault::Ours(fault) => fault.code(),
            EventFault::Heard(fault) => fault.code(),
        }
    }
}

/// A router over which a route leads.
#[derive(Clone, Copy, PartialEq, Eq)]
pub(crate) enum Hop {
    /// A node, by its number.
    Ours(usize),
    /// A router that is no node.
    Foreign {
        /// Its address.
        neighbour: Addr,
        /// The next hop that it advertised: packets are sent there.
        next_hop: Addr,
        /// The node that has the address of the next hop.
        node: Option<usize>,
    },
}

/// A network that runs the events of a scenario.
pub(crate) trait Runs {
    /// Makes the step of the event, or refuses it and changes nothing. Returns what it sent, if the
    /// network reports it.
    fn step(&mut self, event: &ScenarioEvent) -> Result<Option<Emitted>, EventFault>;

    /// Reserves the room for so many more datagrams.
    fn reserve(&mut self, datagrams: usize) -> Result<(), Memory>;

    /// A count that grows whenever a selected route of the node may differ.
    fn routes_version(&self, node: usize) -> Option<u64>;

    /// The node's selection at this place, with its prefix.
    fn selection_at(&self, node: usize, place: usize) -> Option<(Prefix, Selection)>;

    /// The router over which the node's selected route to the prefix leads.
    fn hop(&self, node: usize, prefix: &Prefix) -> Option<Hop>;

    /// The router that announces the prefix of the node's selected route.
    fn router(&self, node: usize, prefix: &Prefix) -> Option<RouterId>;

    /// The node that sent the datagram of this number, and how many octets it has, if there is one.
    fn sent_by(&self, number: usize) -> Option<(usize, usize)>;
}

/// A network of our nodes alone.
impl Runs for Network {
    fn step(&mut self, event: &ScenarioEvent) -> Result<Option<Emitted>, EventFault> {
        match event {
            ScenarioEvent::Ours(Event::Emit { node, now }) => {
                self.emit(*node, *now).map_err(EventFault::Ours)
            }
            ScenarioEvent::Ours(event) => match self.step(event) {
                Ok(()) => Ok(None),
                Err(fault) => Err(EventFault::Ours(fault)),
            },
            // A scenario with such an event runs on a mixed network.
            ScenarioEvent::Heard(_) => Ok(None),
        }
    }

    fn reserve(&mut self, datagrams: usize) -> Result<(), Memory> {
        self.reserve(datagrams)
    }

    fn routes_version(&self, node: usize) -> Option<u64> {
        self.routes_version(node)
    }

    fn selection_at(&self, node: usize, place: usize) -> Option<(Prefix, Selection)> {
        self.selection_at(node, place)
    }

    fn hop(&self, node: usize, prefix: &Prefix) -> Option<Hop> {
        Some(Hop::Ours(self.next_hop(node, prefix)?))
    }

    fn router(&self, node: usize, prefix: &Prefix) -> Option<RouterId> {
        self.router(node, prefix)
    }

    fn sent_by(&self, number: usize) -> Option<(usize, usize)> {
        let (node, _, octets) = self.sent(number)?;
        Some((node, octets.len()))
    }
}

/// A network of our nodes and routers of others.
impl Runs for MixedNetwork {
    fn step(&mut self, event: &ScenarioEvent) -> Result<Option<Emitted>, EventFault> {
        match event {
            ScenarioEvent::Ours(event) => self.step(event).map_err(EventFault::Ours)?,
            ScenarioEvent::Heard(heard) => self.hear(&heard_of(heard)).map_err(EventFault::Heard)?,
        }
        Ok(None)
    }

    fn reserve(&mut self, datagrams: usize) -> Result<(), Memory> {
        self.reserve(datagrams)
    }

    fn routes_version(&self, node: usize) -> Option<u64> {
        self.routes_version(node)
    }

    fn selection_at(&self, node: usize, place: usize) -> Option<(Prefix, Selection)> {
        self.selection_at(node, place)
    }

    fn hop(&self, node: usize, prefix: &Prefix) -> Option<Hop> {
        if let Some(next) = self.next_hop(node, prefix) {
            return Some(Hop::Ours(next));
        }
        let selected = self.selected(node, prefix)?;
        Some(Hop::Foreign {
            neighbour: selected.peer.addr,
            next_hop: selected.next_hop,
            node: self.gateway(node, prefix),
        })
    }

    fn router(&self, node: usize, prefix: &Prefix) -> Option<RouterId> {
        self.router(node, prefix)
    }

    fn sent_by(&self, number: usize) -> Option<(usize, usize)> {
        let (node, _, octets) = self.sent(number)?;
        Some((node, octets.len()))
    }
}

/// The node of the event.
pub(crate) fn node_of(event: &ScenarioEvent) -> usize {
    match event {
        ScenarioEvent::Ours(event) => babel_net::node_of(event),
        ScenarioEvent::Heard(heard) => heard.node,
    }
}

/// The event, if it is one of our nodes.
pub(crate) fn ours(event: &ScenarioEvent) -> Option<&Event> {
    match event {
        ScenarioEvent::Ours(event) => Some(event),
        ScenarioEvent::Heard(_) => None,
    }
}

fn heard_of(heard: &HeardDatagram) -> Heard<'_> {
    Heard {
        node: heard.node,
        iface: heard.iface,
        source: heard.source,
        octets: heard.octets.as_slice(),
        now: heard.now,
    }
}
