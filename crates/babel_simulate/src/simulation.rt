//! The run of a network.

use crate::agenda::{Agenda, Entry};
use crate::building::{add_prefixes, add_speakers, configs};
use crate::chances::Chances;
use crate::errors::SimulationFault;
use crate::hops::{Hops, Origin};
use crate::links::Condition;
use crate::moments::{Moment, NodeState};
use crate::options::Options;
use crate::phases::{Measured, Traffic};
use babel_machine::Event;
use babel_net::Network;
use babel_outcome::{Counts, Outcome};
use babel_topology::{Action, Node, Topology};
use babel_value::Prefix;
use std::alloc::{AllocError, Global};

/// How far a run is.
#[derive(Clone, Copy)]
pub enum Progress {
    /// It is at this moment, in centiseconds, and goes on.
    At(u64),
    /// It has ended.
    Ended,
}

/// A network that runs.
#[derive(Drop)]
pub struct Simulation<'a> {
    pub(crate) alloc: Global,
    pub(crate) topology: &'a Topology,
    pub(crate) options: Options,
    pub(crate) network: Network,
    // the node that each speaker of the network runs
    pub(crate) speakers: Vec<usize>,
    pub(crate) moment: Moment,
    pub(crate) agenda: Agenda,
    pub(crate) chances: Chances,
    pub(crate) now: u64,
    pub(crate) sent: Traffic,
    pub(crate) measured: Measured,
    pub(crate) events: Vec<Event>,
    // what is known so far
    pub(crate) outcome: Outcome,
    pub(crate) way_count: u64,
}

impl<'a> Simulation<'a> {
    /// A network of the topology. Each node begins within its first Hello interval, at a moment
    /// from the seed.
    ///
    /// # Errors
    ///
    /// `Net` if no network can be made of the nodes, `Memory` if an allocation fails.
    pub fn new(
        alloc: Global,
        topology: &'a Topology,
        options: Options,
    ) -> Result<Simulation<'a>, SimulationFault> {
        let network = Network::new(alloc, configs(alloc, topology)?)?;
        let mut simulation = Simulation {
            alloc,
            topology,
            options,
            network,
            speakers: Vec::new(alloc),
            moment: Moment::new(alloc),
            agenda: Agenda::new(alloc),
            chances: Chances::new(options.seed),
            now: 0,
            sent: Traffic::default(),
            measured: Measured::new(0, 0, Traffic::default()),
            events: Vec::new(alloc),
            outcome: Outcome::new(alloc),
            way_count: 0,
        };
        simulation.prepare()?;
        Ok(simulation)
    }

    /// Makes the links and nodes, and plans what happens to them.
    fn prepare(&mut self) -> Result<(), AllocError> {
        let topology = self.topology;
        add_speakers(topology, &mut self.speakers)?;
        add_prefixes(topology, &mut self.outcome.prefixes)?;
        let prefixes = self.outcome.prefixes.len();
        self.moment.hops = Hops::of(self.alloc, topology.nodes.len(), prefixes)?;
        self.moment.links.add_all(self.alloc, topology)?;
        self.add_plan()?;
        self.add_nodes()
    }

    /// What the topology plans and expects happens at its moments: at one moment first the
    /// expectations, and then the steps.
    fn add_plan(&mut self) -> Result<(), AllocError> {
        let topology = self.topology;
        for (number, expectation) in topology.expectations.iter().enumerate() {
            self.agenda
                .push(expectation.at, Entry::Expectation(number))?;
        }
        for (number, step) in topology.steps.iter().enumerate() {
            self.agenda.push(step.at, Entry::Step(number))?;
            // A node is configured with a prefix that it announces later.
            if let Action::Announce { node, prefix } = step.action {
                self.set_origin(node, &prefix, Origin::Withheld);
            }
        }
        Ok(())
    }

    /// The nodes begin.
    fn add_nodes(&mut self) -> Result<(), AllocError> {
        let topology = self.topology;
        for (number, node) in topology.nodes.iter().enumerate() {
            self.add_node(number, node)?;
            for prefix in &node.prefixes {
                self.set_origin(number, prefix, Origin::Announced);
            }
        }
        Ok(())
    }

    fn add_node(&mut self, number: usize, node: &Node) -> Result<(), AllocError> {
        let wake = self.chances.below(u64::from(node.hello));
        self.agenda.push(wake, Entry::Wake(number))?;
        self.moment.nodes.push(NodeState {
            speaker: number,
            condition: Condition::Down,
            wake,
            next_request: 0,
            version: None,
            counts: Counts::default(),
        })?;
        Ok(())
    }

    /// From now on the node announces the prefix, or not.
    fn set_origin(&mut self, node: usize, prefix: &Prefix, origin: Origin) {
        if let Some(index) = self.index_of(prefix) {
            self.moment.hops.set_origin(node, index, origin);
        }
    }

    /// The index of the prefix.
    pub(crate) fn index_of(&self, prefix: &Prefix) -> Option<usize> {
        for (index, other) in self.outcome.prefixes.iter().enumerate() {
            if *other == *prefix {
                return Some(index);
            }
        }
        None
    }

    /// Makes what happens next.
    ///
    /// # Errors
    ///
    /// `Limit` if what is recorded takes more memory than it may, `Step` if the network refuses an
    /// event, `Memory` if an allocation fails.
    pub fn advance(&mut self) -> Result<Progress, SimulationFault> {
        let Some((at, entry)) = self.agenda.pop() else {
            return Ok(Progress::Ended);
        };
        if at > self.options.duration {
            return Ok(Progress::Ended);
        }
        if self.memory() > self.options.memory {
            return Err(SimulationFault::Limit);
        }
        self.now = at;
        match entry {
            Entry::Expectation(number) => self.test(number)?,
            Entry::Step(number) => self.take_step(number)?,
            Entry::Wake(node) => self.wake(node)?,
            Entry::Arrival(arrival) => self.arrive(arrival)?,
        }
        Ok(Progress::At(at))
    }

    /// How many octets of memory the record of the datagrams and what else grows with the run take,
    /// at most. The network records each datagram, since the theorem speaks of all that were ever
    /// sent. Those that are on links wait in the agenda, once for each link. A list that grows has
    /// twice its room, and so has a tree whose nodes are half full.
    fn memory(&self) -> u64 {
        let recorded = self
            .sent
            .datagrams
            .saturating_mul(RECORDED_LEN)
            .saturating_add(self.sent.octets);
        let events = (self.events.len() as u64).saturating_mul(EVENT_LEN);
        let changes = (self.outcome.changes.len() as u64).saturating_mul(CHANGE_LEN);
        let ways = self.way_count.saturating_mul(WAY_LEN);
        let agenda = (self.agenda.len() as u64).saturating_mul(ENTRY_LEN);
        recorded
            .saturating_add(agenda)
            .saturating_add(events)
            .saturating_add(changes)
            .saturating_add(ways)
            .saturating_mul(2)
    }

    /// The moment, in centiseconds.
    pub fn now(&self) -> u64 {
        self.now
    }

    /// The events so far, if they are kept.
    pub fn events(&self) -> &[Event] {
        &self.events
    }
}

/// How many octets a recorded datagram takes in addition to its own.
const RECORDED_LEN: u64 = 48;

/// How many octets something takes that is still to happen: its moment and number, what it is, and
/// its share of the node of the tree.
const ENTRY_LEN: u64 = 72;

/// How many octets an event takes.
const EVENT_LEN: u64 = 40;

/// How many octets a changed next hop takes.
const CHANGE_LEN: u64 = 56;

/// How many octets a way takes that is not shortest at the end of a phase.
const WAY_LEN: u64 = 80;
