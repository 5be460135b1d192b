//! What is shown of a run, and the texts of its parts.

use crate::outcome::{Outcome, Phase, Route};
use babel_topology::{Action, NextHop, Step, Topology};
use babel_value::Prefix;
use std::fmt;

/// What is shown of a run.
#[derive(Clone, Copy)]
pub struct Shown<'a> {
    /// The network.
    pub topology: &'a Topology,
    /// What is known of the run.
    pub outcome: &'a Outcome,
    /// The seed of the run.
    pub seed: u64,
    /// The one prefix whose next hops and ways are shown; `None`: all.
    pub prefix: Option<Prefix>,
}

/// Whether each expectation was met, and none is missing.
pub fn is_as_expected(shown: &Shown<'_>) -> bool {
    for tested in &shown.outcome.tested {
        if !tested.is_met {
            return false;
        }
    }
    shown.outcome.tested.len() == shown.topology.expectations.len()
}

impl<'a> Shown<'a> {
    /// The name of a node.
    pub(crate) fn name(&self, node: usize) -> &'a str {
        match self.topology.nodes.get(node) {
            Some(node) => node.name.as_str(),
            None => "?",
        }
    }

    /// The prefix of this index, if it is shown.
    pub(crate) fn prefix(&self, index: usize) -> Option<Prefix> {
        let prefix = self.outcome.prefixes.get(index).copied()?;
        match self.prefix {
            Some(only) if only != prefix => None,
            _ => Some(prefix),
        }
    }

    /// The next hop of the node to the prefix at the end.
    pub(crate) fn hop_at(&self, node: usize, prefix: usize) -> Option<NextHop> {
        let index = node
            .saturating_mul(self.outcome.prefixes.len())
            .saturating_add(prefix);
        Some(self.outcome.routes.get(index)?.hop)
    }

    /// The ways that are not shortest at the end of the phase of this number.
    pub(crate) fn not_shortest(&self, phase: usize) -> &'a [Route] {
        match self.outcome.not_shortest.get(phase) {
            Some(ways) => ways.as_slice(),
            None => &[],
        }
    }

    /// The steps of the plan from this one on that are made by the moment.
    pub fn steps_until(&self, first: usize, until: u64) -> &'a [Step] {
        let until = until.min(self.outcome.ended);
        let mut end = first;
        for step in self.topology.steps.iter().skip(first) {
            if step.at > until {
                break;
            }
            end = end.saturating_add(1);
        }
        self.topology.steps.get(first..end).unwrap_or(&[])
    }

    /// The steps of the plan with which a phase began.
    pub(crate) fn steps_of(&self, phase: &Phase) -> &'a [Step] {
        let end = phase.first_step.saturating_add(phase.steps);
        self.topology
            .steps
            .get(phase.first_step..end)
            .unwrap_or(&[])
    }

    /// The name of a next hop.
    pub(crate) fn hop(&self, hop: NextHop) -> &'a str {
        self.via(hop).unwrap_or("none")
    }

    /// The name of the node that is the next hop, if there is one.
    pub(crate) fn via(&self, hop: NextHop) -> Option<&'a str> {
        match hop {
            NextHop::Via(node) => Some(self.name(node)),
            NextHop::Unreachable => None,
        }
    }

    /// The names of the ends of a link, and what is between them.
    fn ends(&self, link: usize) -> (&'a str, &'a str, &'a str) {
        match self.topology.links.get(link) {
            Some(link) => (self.name(link.a.node), "-", self.name(link.b.node)),
            None => ("?", "-", "?"),
        }
    }

    /// A step, as it is written.
    pub fn step(&self, action: Action) -> StepText<'a> {
        let names = match action {
            Action::Cut { link }
            | Action::Join { link }
            | Action::SetCost { link, .. }
            | Action::SetLoss { link, .. } => self.ends(link),
            Action::Announce { node, .. }
            | Action::Withdraw { node, .. }
            | Action::Restart { node }
            | Action::Crash { node } => (self.name(node), "", ""),
        };
        StepText { action, names }
    }
}

/// A time in seconds, as it is written.
#[derive(Clone, Copy)]
pub(crate) struct Seconds(pub(crate) u64);

impl fmt::Display for Seconds {
    fn fmt<W: fmt::Write>(&self, f: &mut fmt::Formatter<W>) -> fmt::Result {
        let whole = self.0 / 100;
        let rest = self.0 % 100;
        write!(f, "{whole}.{rest:02} s")
    }
}

/// A number and what is counted: one of it, or several.
#[derive(Clone, Copy)]
pub(crate) struct Counted(
    pub(crate) usize,
    pub(crate) &'static str,
    pub(crate) &'static str,
);

impl fmt::Display for Counted {
    fn fmt<W: fmt::Write>(&self, f: &mut fmt::Formatter<W>) -> fmt::Result {
        let name = if self.0 == 1 { self.1 } else { self.2 };
        write!(f, "{} {name}", self.0)
    }
}

/// A number, or the text in its place if there is none.
#[derive(Clone, Copy)]
pub(crate) struct NumberOr(pub(crate) Option<u64>, pub(crate) &'static str);

impl fmt::Display for NumberOr {
    fn fmt<W: fmt::Write>(&self, f: &mut fmt::Formatter<W>) -> fmt::Result {
        match self.0 {
            Some(number) => number.fmt(f),
            None => f.write_str(self.1),
        }
    }
}

/// A next hop, as it is written: the name of a node, or none.
#[derive(Clone, Copy)]
pub(crate) struct HopText<'a>(pub(crate) Option<&'a str>);

impl fmt::Display for HopText<'_> {
    fn fmt<W: fmt::Write>(&self, f: &mut fmt::Formatter<W>) -> fmt::Result {
        match self.0 {
            Some(name) => write!(f, "via {name}"),
            None => f.write_str("none"),
        }
    }
}

/// A step of the plan, as it is written.
#[derive(Clone, Copy)]
pub struct StepText<'a> {
    action: Action,
    /// Of the ends of its link, with what is between them, or of its node.
    names: (&'a str, &'a str, &'a str),
}

impl fmt::Display for StepText<'_> {
    fn fmt<W: fmt::Write>(&self, f: &mut fmt::Formatter<W>) -> fmt::Result {
        let word = match self.action {
            Action::Cut { .. } => "cut",
            Action::Join { .. } => "join",
            Action::SetCost { .. } => "cost",
            Action::SetLoss { .. } => "lossy",
            Action::Announce { .. } => "announce",
            Action::Withdraw { .. } => "withdraw",
            Action::Restart { .. } => "restart",
            Action::Crash { .. } => "crash",
        };
        let (one, between, other) = self.names;
        write!(f, "{word} {one}{between}{other}")?;
        match self.action {
            Action::SetCost { cost, .. } => write!(f, " {cost}"),
            Action::SetLoss { loss, .. } => write!(f, " {loss} %"),
            Action::Announce { prefix, .. } | Action::Withdraw { prefix, .. } => {
                write!(f, " {prefix}")
            }
            _ => Ok(()),
        }
    }
}
