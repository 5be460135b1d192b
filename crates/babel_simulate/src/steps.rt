//! The steps of the plan, and the tests of what is expected.

use crate::building::begins_empty;
use crate::errors::SimulationFault;
use crate::hops::Origin;
use crate::links::{Condition, Way};
use crate::phases::Measured;
use crate::simulation::Simulation;
use babel_machine::Event;
use babel_outcome::Tested;
use babel_topology::{Action, End, Link, NextHop};
use babel_value::Prefix;
use std::alloc::AllocError;

impl Simulation<'_> {
    /// Makes the step of this number. A phase begins, if none began at this moment.
    pub(crate) fn take_step(&mut self, number: usize) -> Result<(), SimulationFault> {
        let Some(step) = self.topology.steps.get(number).copied() else {
            return Ok(());
        };
        if !self.measured.began_at(self.now) {
            self.end_phase()?;
            self.measured = Measured::new(self.now, number, self.sent);
        }
        self.measured.add_step();
        self.act(step.action)
    }

    /// Does what a step asks for.
    fn act(&mut self, action: Action) -> Result<(), SimulationFault> {
        match action {
            Action::Cut { link } => {
                if let Some(state) = self.moment.links.get_mut(link) {
                    state.condition = Condition::Down;
                }
                Ok(())
            }
            Action::Join { link } => {
                if let Some(state) = self.moment.links.get_mut(link) {
                    state.condition = Condition::Up;
                }
                Ok(())
            }
            Action::SetLoss { link, loss } => {
                if let Some(state) = self.moment.links.get_mut(link) {
                    state.link.loss = loss;
                }
                Ok(())
            }
            Action::SetCost { link, cost } => self.change_cost(link, cost),
            Action::Announce { node, prefix } => self.announce(node, prefix),
            Action::Withdraw { node, prefix } => self.withdraw(node, prefix),
            Action::Restart { node } => self.restart(node),
            Action::Crash { node } => self.crash(node),
        }
    }

    /// Tests the expectation of this number.
    pub(crate) fn test(&mut self, number: usize) -> Result<(), AllocError> {
        let Some(expectation) = self.topology.expectations.get(number).copied() else {
            return Ok(());
        };
        let found = match self.index_of(&expectation.prefix) {
            Some(index) => self.moment.hops.get(expectation.node, index),
            None => NextHop::Unreachable,
        };
        self.outcome.tested.push(Tested {
            expectation: number,
            found,
            is_met: found == expectation.hop,
        })?;
        Ok(())
    }

    /// The phase ends now.
    pub(crate) fn end_phase(&mut self) -> Result<(), AllocError> {
        let prefixes = self.outcome.prefixes.len();
        let mut ways = Vec::new(self.alloc);
        let quality = self.moment.quality(self.alloc, prefixes, &mut ways)?;
        self.way_count = self.way_count.saturating_add(ways.len() as u64);
        self.outcome.not_shortest.push(ways)?;
        let phase = self.measured.end(self.now, self.sent, quality);
        self.outcome.phases.push(phase)?;
        Ok(())
    }

    /// The interfaces at both ends of the link have this cost from now on.
    fn change_cost(&mut self, link: usize, cost: u16) -> Result<(), SimulationFault> {
        let Some(state) = self.moment.links.get_mut(link) else {
            return Ok(());
        };
        state.link.cost = cost;
        let Link { a, b, .. } = state.link;
        self.change_end(a, cost)?;
        self.change_end(b, cost)
    }

    fn change_end(&mut self, end: End, cost: u16) -> Result<(), SimulationFault> {
        if !self.moment.is_up(end.node) {
            return Ok(());
        }
        self.set_cost(end.node, end.iface, cost)?;
        self.settle(end.node)
    }

    fn set_cost(&mut self, node: usize, iface: usize, cost: u16) -> Result<(), SimulationFault> {
        let Ok(iface) = u8::try_from(iface) else {
            return Ok(());
        };
        let node = self.speaker_of(node);
        self.make(Event::SetCost { node, iface, cost })
    }

    fn announce(&mut self, node: usize, prefix: Prefix) -> Result<(), SimulationFault> {
        let Some(index) = self.index_of(&prefix) else {
            return Ok(());
        };
        self.moment.hops.set_origin(node, index, Origin::Announced);
        let speaker = self.speaker_of(node);
        self.make_if_up(
            node,
            Event::Announce {
                node: speaker,
                prefix,
            },
        )
    }

    /// The node announces the prefix no longer, if it does.
    fn withdraw(&mut self, node: usize, prefix: Prefix) -> Result<(), SimulationFault> {
        let Some(index) = self.index_of(&prefix) else {
            return Ok(());
        };
        if !self.moment.hops.announces(node, index) {
            return Ok(());
        }
        self.moment.hops.set_origin(node, index, Origin::Withheld);
        let speaker = self.speaker_of(node);
        self.make_if_up(
            node,
            Event::Withdraw {
                node: speaker,
                prefix,
            },
        )
    }

    /// Makes an event of the node, if it is up.
    fn make_if_up(&mut self, node: usize, event: Event) -> Result<(), SimulationFault> {
        if !self.moment.is_up(node) {
            return Ok(());
        }
        self.make(event)?;
        self.settle(node)
    }

    /// The node begins again.
    fn restart(&mut self, node: usize) -> Result<(), SimulationFault> {
        let now = self.now;
        if begins_empty(self.topology, node) {
            self.renew(node);
        } else {
            let speaker = self.speaker_of(node);
            self.make(Event::Restart { node: speaker, now })?;
        }
        if let Some(state) = self.moment.nodes.get_mut(node) {
            state.condition = Condition::Up;
            state.version = None;
        }
        self.restore_settings(node)?;
        self.settle(node)
    }

    /// The node stops.
    fn crash(&mut self, node: usize) -> Result<(), SimulationFault> {
        if let Some(state) = self.moment.nodes.get_mut(node) {
            state.condition = Condition::Down;
            // No moment: a node that is down isn't due.
            state.wake = u64::MAX;
            state.version = None;
        }
        for index in 0..self.outcome.prefixes.len() {
            self.see_hop(node, index, NextHop::Unreachable)?;
        }
        Ok(())
    }

    /// A speaker that begins announces the prefixes of its configuration, and its interfaces have
    /// the costs that are there. Those that the plan has changed are changed again.
    pub(crate) fn restore_settings(&mut self, node: usize) -> Result<(), SimulationFault> {
        let speaker = self.speaker_of(node);
        for index in 0..self.outcome.prefixes.len() {
            let prefix = self.outcome.prefixes.get(index).copied();
            let origin = self.moment.hops.origin(node, index);
            if let (Some(prefix), Origin::Withheld) = (prefix, origin) {
                self.make(Event::Withdraw {
                    node: speaker,
                    prefix,
                })?;
            }
        }
        self.restore_costs(node)
    }

    /// An interface whose cost changes has one link.
    fn restore_costs(&mut self, node: usize) -> Result<(), SimulationFault> {
        for number in 0..self.moment.links.ways(node).len() {
            if let Some(way) = self.moment.links.ways(node).get(number).copied() {
                if let Some(cost) = self.changed_cost(&way) {
                    self.set_cost(node, way.iface, cost)?;
                }
            }
        }
        Ok(())
    }

    /// The cost of a way, if it isn't that of the topology.
    fn changed_cost(&self, way: &Way) -> Option<u16> {
        let cost = self.moment.links.get(way.link)?.link.cost;
        let configured = self.topology.links.get(way.link)?.cost;
        if cost == configured { None } else { Some(cost) }
    }
}
