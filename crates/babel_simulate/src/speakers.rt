//! What the speakers do: they are ticked when they are due, they send, and they receive.

use crate::agenda::{Arrival, Entry};
use crate::building::address_of;
use crate::errors::SimulationFault;
use crate::links::{Condition, Way};
use crate::options::KeptEvents;
use crate::simulation::Simulation;
use babel_machine::Event;
use babel_net::Emitted;
use babel_outcome::HopChange;
use babel_topology::NextHop;
use std::alloc::AllocError;

/// How many datagrams a speaker sends at one moment at most.
const MAX_SENT: usize = 1 << 20;

/// How late a datagram is that others overtake, at most, in centiseconds.
const MAX_LATENESS: u64 = 100;

impl Simulation<'_> {
    /// Makes an event of the network.
    pub(crate) fn make(&mut self, event: Event) -> Result<(), SimulationFault> {
        self.network.step(&event)?;
        self.note(event)?;
        Ok(())
    }

    fn note(&mut self, event: Event) -> Result<(), AllocError> {
        self.outcome.events = self.outcome.events.saturating_add(1);
        if matches!(self.options.events, KeptEvents::Kept) {
            self.events.push(event)?;
        }
        Ok(())
    }

    /// The speaker that runs the node.
    pub(crate) fn speaker_of(&self, node: usize) -> usize {
        match self.moment.nodes.get(node) {
            Some(state) => state.speaker,
            None => usize::MAX,
        }
    }

    /// The node is run by the next speaker that is there for it.
    pub(crate) fn renew(&mut self, node: usize) {
        let old = self.speaker_of(node);
        for (speaker, run) in self.speakers.iter().enumerate() {
            if *run == node && speaker > old {
                if let Some(state) = self.moment.nodes.get_mut(node) {
                    state.speaker = speaker;
                }
                return;
            }
        }
    }

    /// The node is due, unless it was due otherwise meanwhile.
    pub(crate) fn wake(&mut self, node: usize) -> Result<(), SimulationFault> {
        let now = self.now;
        let Some(state) = self.moment.nodes.get_mut(node) else {
            return Ok(());
        };
        if state.wake != now {
            return Ok(());
        }
        if !state.condition.is_up() {
            state.condition = Condition::Up;
            self.restore_settings(node)?;
        }
        self.settle(node)
    }

    /// The node's timers run if it is due, and it sends what it has to send. Then it waits.
    pub(crate) fn settle(&mut self, node: usize) -> Result<(), SimulationFault> {
        let now = self.now;
        let speaker = self.speaker_of(node);
        if self.due_at(speaker) <= now {
            self.make(Event::Tick { node: speaker, now })?;
            self.request_seqnos(node, speaker)?;
            self.group_items(speaker)?;
            self.send_all(node, speaker)?;
        }
        self.see_hops(node, speaker)?;
        let wake = self.due_at(speaker).max(now.saturating_add(1));
        if let Some(state) = self.moment.nodes.get_mut(node) {
            if state.wake != wake {
                state.wake = wake;
                self.agenda.push(wake, Entry::Wake(node))?;
            }
        }
        Ok(())
    }

    /// Once a Hello interval the node requests greater seqnos, if it has a route that it would
    /// select if that were feasible, as `babel run` does.
    fn request_seqnos(&mut self, node: usize, speaker: usize) -> Result<(), SimulationFault> {
        let now = self.now;
        let hello = match self.topology.nodes.get(node) {
            Some(node) => u64::from(node.hello),
            None => 0,
        };
        let Some(state) = self.moment.nodes.get_mut(node) else {
            return Ok(());
        };
        if now < state.next_request {
            return Ok(());
        }
        state.next_request = now.saturating_add(hello);
        match self.network.wants_seqnos(speaker) {
            Some(true) => self.make(Event::RequestSeqnos { node: speaker, now }),
            _ => Ok(()),
        }
    }

    /// What the node has pending goes in as few datagrams as can be, as `babel run` sends it.
    fn group_items(&mut self, speaker: usize) -> Result<(), SimulationFault> {
        // One item, or two, are in groups.
        if self.network.pending_count(speaker).unwrap_or(0) <= 2 {
            return Ok(());
        }
        self.make(Event::GroupItems { node: speaker })
    }

    /// When the speaker is due.
    fn due_at(&self, speaker: usize) -> u64 {
        self.network.next_due(speaker).unwrap_or(u64::MAX)
    }

    /// The node sends all that it has to send.
    fn send_all(&mut self, node: usize, speaker: usize) -> Result<(), SimulationFault> {
        let now = self.now;
        for _ in 0..MAX_SENT {
            let emitted = self.network.emit(speaker, now)?;
            self.note(Event::Emit { node: speaker, now })?;
            match emitted {
                Some(emitted) => self.carry(node, emitted)?,
                None => return Ok(()),
            }
        }
        Ok(())
    }

    /// The datagram goes over each link that it is for.
    fn carry(&mut self, node: usize, emitted: Emitted) -> Result<(), AllocError> {
        let octets = match self.network.sent(emitted.number) {
            Some((_, _, octets)) => octets.len(),
            None => 0,
        };
        self.sent.add(octets);
        if let Some(state) = self.moment.nodes.get_mut(node) {
            state.counts.datagrams = state.counts.datagrams.saturating_add(1);
            state.counts.octets = state.counts.octets.saturating_add(octets as u64);
        }
        for number in 0..self.moment.links.ways(node).len() {
            if let Some(way) = self.moment.links.ways(node).get(number).copied() {
                if self.is_for(&emitted, &way) {
                    self.send_over(emitted.number, way)?;
                }
            }
        }
        Ok(())
    }

    /// Whether the datagram is for the neighbour at the other end of the way.
    fn is_for(&self, emitted: &Emitted, way: &Way) -> bool {
        if usize::from(emitted.target.iface) != way.iface {
            return false;
        }
        match emitted.target.to {
            Some(to) => to == address_of(self.speaker_of(way.far.node), way.far.iface),
            None => true,
        }
    }

    /// The datagram goes over a link, and is lost or not.
    fn send_over(&mut self, datagram: usize, way: Way) -> Result<(), AllocError> {
        let Some(state) = self.moment.links.get(way.link) else {
            return Ok(());
        };
        if !state.condition.is_up() || self.chances.is_hit(state.link.loss) {
            self.lose(way.far.node);
            return Ok(());
        }
        let arrival = Arrival {
            datagram,
            link: way.link,
            to: way.far,
        };
        let at = self.now.saturating_add(state.link.delay);
        self.add_arrival(at, arrival)?;
        if self.chances.is_hit(self.options.repeated) {
            self.add_arrival(at, arrival)?;
        }
        Ok(())
    }

    /// The datagram arrives at the moment, or later if it is late.
    fn add_arrival(&mut self, at: u64, arrival: Arrival) -> Result<(), AllocError> {
        let mut at = at;
        if self.chances.is_hit(self.options.late) {
            at = at.saturating_add(self.chances.below(MAX_LATENESS).saturating_add(1));
        }
        self.agenda.push(at, Entry::Arrival(arrival))
    }

    fn lose(&mut self, node: usize) {
        if let Some(state) = self.moment.nodes.get_mut(node) {
            state.counts.lost = state.counts.lost.saturating_add(1);
        }
    }

    /// A datagram arrives, if the link and the node are up.
    pub(crate) fn arrive(&mut self, arrival: Arrival) -> Result<(), SimulationFault> {
        let Arrival { datagram, link, to } = arrival;
        let is_carried = match self.moment.links.get(link) {
            Some(state) => state.condition.is_up(),
            None => false,
        };
        if !is_carried || !self.moment.is_up(to.node) {
            self.lose(to.node);
            return Ok(());
        }
        if let Some(state) = self.moment.nodes.get_mut(to.node) {
            state.counts.received = state.counts.received.saturating_add(1);
        }
        let Ok(iface) = u8::try_from(to.iface) else {
            return Ok(());
        };
        let now = self.now;
        let node = self.speaker_of(to.node);
        self.make(Event::Deliver {
            datagram,
            node,
            iface,
            now,
        })?;
        self.settle(to.node)
    }

    /// Looks at the next hops of the node, if they may have changed.
    pub(crate) fn see_hops(&mut self, node: usize, speaker: usize) -> Result<(), AllocError> {
        let version = self.network.routes_version(speaker);
        let Some(state) = self.moment.nodes.get_mut(node) else {
            return Ok(());
        };
        if state.version == version && version != Some(u64::MAX) {
            return Ok(());
        }
        state.version = version;
        for index in 0..self.outcome.prefixes.len() {
            let hop = self.hop_of(speaker, index);
            self.see_hop(node, index, hop)?;
        }
        Ok(())
    }

    /// The next hop of the speaker.
    fn hop_of(&self, speaker: usize, index: usize) -> NextHop {
        let Some(prefix) = self.outcome.prefixes.get(index).copied() else {
            return NextHop::Unreachable;
        };
        let Some(next) = self.network.next_hop(speaker, &prefix) else {
            return NextHop::Unreachable;
        };
        match self.speakers.get(next) {
            Some(node) => NextHop::Via(*node),
            None => NextHop::Unreachable,
        }
    }

    /// The node has this next hop now.
    pub(crate) fn see_hop(
        &mut self,
        node: usize,
        prefix: usize,
        hop: NextHop,
    ) -> Result<(), AllocError> {
        if self.moment.hops.get(node, prefix) == hop {
            return Ok(());
        }
        self.moment.hops.set(node, prefix, hop);
        let kind = self.moment.kind_of(node, prefix);
        self.measured.add_change(self.now, self.sent);
        if let Some(state) = self.moment.nodes.get_mut(node) {
            state.counts.changes = state.counts.changes.saturating_add(1);
        }
        self.outcome.changes.push(HopChange {
            at: self.now,
            node,
            prefix,
            hop,
            kind,
        })?;
        Ok(())
    }
}
