//! One source of announcements: its owner, its raise count, and what each node has done for it.

ghost use Rattle.std.specs.Prelude.{◌≡◌, ◌<◌, length, IfOk, IfErr, OnOk, OnErr};

use super::node::Node;
use super::pair::Pair;
use super::pick::Pick;
use super::step::Step;
use crate::errors::MachineFault;
use std::alloc::{AllocError, Global};
use std::marker::Model;

/// The machine of one source. The sources of a machine never touch one another.
#[derive(Drop)]
pub struct Source {
    owner: usize,
    raises: u64,
    nodes: Vec<Node>,
}

impl Model for Source {
    ghost use Rattle.babel_machine.specs.Machine.{SourceState};

    ghost Value = { SourceState };

    ghost view = { λ source. record { owner = source.owner; raises = source.raises; nodes = source.nodes.items } };
}

impl Source {
    ghost use Rattle.babel_machine.specs.Machine.{first_state, node_at, Steps};
    ghost use Rattle.babel_machine.specs.MachineRefusals.{announced, HasRoom, Refused};
    ghost use Rattle.babel_machine.specs.Cycle.{next_hop_of};

    /// A source for which none of the nodes has done anything.
    pub fn new(alloc: Global, nodes: usize, owner: usize) -> Result<Self, AllocError>
        ensures { IfOk result (λ source. source ≡ first_state nodes owner) }
    {
        let mut quiet = Vec::with_capacity(alloc, nodes)?;
        for _ in 0..nodes {
            quiet.push(Node::new(alloc))?;
        }
        Ok(Source {
            owner,
            raises: 0,
            nodes: quiet,
        })
    }

    /// Makes the step, or refuses it and changes nothing. A1 to A5.
    pub fn step(&mut self, step: Step) -> Result<(), MachineFault>
        ensures ok { OnOk result (Steps self.old step self.new) }
        ensures room { OnOk result (HasRoom self.old step) }
        ensures refused { IfErr result (Refused self.old step) }
        ensures err { OnErr result (self.new ≡ self.old) }
    {
        match step {
            Step::Raise => self.raise(),
            Step::Announce { node, metric } => self.announce(node, metric),
            Step::Choose { node, from, pair } => self.choose(node, from, pair),
            Step::Drop { node } => self.drop_pick(node),
        }
    }

    fn raise(&mut self) -> Result<(), MachineFault>
        ensures ok { OnOk result (Steps self.old Step.Raise self.new) }
        ensures room { OnOk result (HasRoom self.old Step.Raise) }
        ensures refused { IfErr result (Refused self.old Step.Raise) }
        ensures err { OnErr result (self.new ≡ self.old) }
    {
        let Some(raises) = self.raises.checked_add(1) else {
            return Err(MachineFault::CountAtGreatest);
        };
        self.raises = raises;
        Ok(())
    }

    fn announce(&mut self, node: usize, metric: u16) -> Result<(), MachineFault>
        ensures ok { OnOk result (Steps self.old (Step.Announce node metric) self.new) }
        ensures refused { IfErr result (Refused self.old (Step.Announce node metric)) }
        ensures err { OnErr result (self.new ≡ self.old) }
    {
        if node >= self.nodes.len() {
            return Err(MachineFault::OutOfRange);
        }
        let Some(pair) = self.announced(node, metric) else {
            return Err(MachineFault::MayNotSend);
        };
        self.nodes[node].send(pair)?;
        Ok(())
    }

    fn choose(&mut self, node: usize, from: usize, pair: Pair) -> Result<(), MachineFault>
        ensures ok { OnOk result (Steps self.old (Step.Choose node from pair) self.new) }
        ensures refused { IfErr result (Refused self.old (Step.Choose node from pair)) }
        ensures err { OnErr result (self.new ≡ self.old) }
    {
        if node >= self.nodes.len() || from >= self.nodes.len() {
            return Err(MachineFault::OutOfRange);
        }
        if !self.node(from).has_sent(pair) || !self.node(node).is_exceeded(pair) {
            return Err(MachineFault::MayNotPick);
        }
        self.nodes[node].set_pick(Some(Pick { from, pair }));
        Ok(())
    }

    fn drop_pick(&mut self, node: usize) -> Result<(), MachineFault>
        ensures ok { OnOk result (Steps self.old (Step.Drop node) self.new) }
        ensures refused { IfErr result (Refused self.old (Step.Drop node)) }
        ensures err { OnErr result (self.new ≡ self.old) }
    {
        if node >= self.nodes.len() {
            return Err(MachineFault::OutOfRange);
        }
        self.nodes[node].set_pick(None);
        Ok(())
    }

    /// The node that the node's pick is from.
    pub fn next_hop(&self, node: usize) -> Option<usize>
        ensures { result ≡ next_hop_of self.now node }
    {
        if node >= self.nodes.len() {
            return None;
        }
        self.node(node).pick().map(|pick| pick.from)
    }

    /// The pair that the node announces under the metric, if it may.
    fn announced(&self, node: usize, metric: u16) -> Option<Pair>
        requires { node < length self.now.nodes }
        ensures { result ≡ announced self.now node metric }
    {
        if node != self.owner {
            return self.node(node).pick()?.passed_on(metric);
        }
        if metric != 0 {
            return None;
        }
        Some(Pair {
            raises: self.raises,
            metric,
        })
    }

    fn node(&self, node: usize) -> &Node
        requires { node < length self.now.nodes }
        ensures { result.now ≡ node_at self.now node }
    {
        &self.nodes[node]
    }
}
