//! The message machine by itself: owners announce, nodes pick what others sent if it is better than
//! everything they ever sent themselves, and pass on what they picked under a greater metric.
//! After any calls, for no source do the picks form a cycle.

ghost use Rattle.std.specs.Prelude.{◌≡◌, ◌<◌, List, All, IfOk, IfErr, OnOk, OnErr};
ghost use Rattle.babel_machine.specs.Machine.{first_states};

use self::pair::Pair;
use self::source::Source;
use self::step::Step;
use crate::errors::MachineFault;
use std::alloc::{AllocError, Global};
use std::marker::Model;

pub mod laws;
mod node;
mod pair;
mod pick;
mod source;
mod step;

/// Nodes and sources, by their numbers from 0: what each node ever sent for each source, and what
/// it picked.
#[derive(Drop)]
pub struct Machine {
    sources: Vec<Source>,
}

impl Model for Machine {
    ghost use Rattle.std.specs.Prelude.{List, All};
    ghost use Rattle.babel_machine.specs.Machine.{SourceState};
    ghost use Rattle.babel_machine.specs.Sound.{IsSound};

    ghost Value = { List SourceState };

    ghost view = { λ machine. machine.sources.items };

    ghost invariant = { λ machine. All IsSound machine.sources.items };
}

impl Machine {
    ghost use Rattle.babel_machine.specs.Machine.{StepsAt};
    ghost use Rattle.babel_machine.specs.MachineRefusals.{RefusedAt, IsAllowedAt, NewRefused};
    ghost use Rattle.babel_machine.specs.Cycle.{next_hop_at, NoCycle, OwnerHasNoPick};

    /// A machine of `nodes` nodes in which node `owners[i]` owns source `i`. Nothing is sent or
    /// picked. A1 if an owner is no node, A5 if an allocation fails.
    pub fn new(alloc: Global, nodes: usize, owners: Vec<usize>) -> Result<Self, MachineFault>
        ensures in_range { OnOk result (All (λ owner. owner < nodes) owners.items) }
        ensures first { IfOk result (λ machine. machine ≡ first_states nodes owners.items) }
        ensures refused { IfErr result (NewRefused nodes owners.items) }
    {
        if !owners.iter().all(|owner| *owner < nodes) {
            return Err(MachineFault::OutOfRange);
        }
        let sources = sources_of(alloc, nodes, &owners)?;
        Ok(Machine { sources })
    }

    /// The owner of the source raises its count by 1. A1, A2.
    pub fn raise(&mut self, source: usize) -> Result<(), MachineFault>
        ensures ok { OnOk result (StepsAt self.old source Step.Raise self.new) }
        ensures allowed { OnOk result (IsAllowedAt self.old source Step.Raise) }
        ensures refused { IfErr result (RefusedAt self.old source Step.Raise) }
        ensures err { OnErr result (self.new ≡ self.old) }
    {
        self.step(source, Step::Raise)
    }

    /// The node sends a pair for the source: the owner its raise count under metric 0, another node
    /// its pick's count under a greater metric up to 65534. A pair that it has sent before takes no
    /// memory. A1, A3, A5.
    pub fn announce(&mut self, node: usize, source: usize, metric: u16) -> Result<(), MachineFault>
        ensures ok { OnOk result (StepsAt self.old source (Step.Announce node metric) self.new) }
        ensures allowed { OnOk result (IsAllowedAt self.old source (Step.Announce node metric)) }
        ensures refused { IfErr result (RefusedAt self.old source (Step.Announce node metric)) }
        ensures err { OnErr result (self.new ≡ self.old) }
    {
        self.step(source, Step::Announce { node, metric })
    }

    /// The node picks the pair that `from` sent for the source, if it is better than all that the
    /// node ever sent for it. A1, A4.
    pub fn pick(
        &mut self,
        node: usize,
        source: usize,
        from: usize,
        raises: u64,
        metric: u16,
    ) -> Result<(), MachineFault>
        ensures ok { OnOk result (StepsAt self.old source
            (Step.Choose node from (record { raises = raises; metric = metric })) self.new) }
        ensures allowed { OnOk result (IsAllowedAt self.old source
            (Step.Choose node from (record { raises = raises; metric = metric }))) }
        ensures refused { IfErr result (RefusedAt self.old source
            (Step.Choose node from (record { raises = raises; metric = metric }))) }
        ensures err { OnErr result (self.new ≡ self.old) }
    {
        let pair = Pair { raises, metric };
        self.step(source, Step::Choose { node, from, pair })
    }

    /// The node's pick for the source, if any, becomes none. A1.
    pub fn unpick(&mut self, node: usize, source: usize) -> Result<(), MachineFault>
        ensures ok { OnOk result (StepsAt self.old source (Step.Drop node) self.new) }
        ensures allowed { OnOk result (IsAllowedAt self.old source (Step.Drop node)) }
        ensures refused { IfErr result (RefusedAt self.old source (Step.Drop node)) }
        ensures err { OnErr result (self.new ≡ self.old) }
    {
        self.step(source, Step::Drop { node })
    }

    /// The node that the node's pick for the source is from. None without a pick, or for numbers
    /// out of range.
    pub fn next_hop(&self, node: usize, source: usize) -> Option<usize>
        ensures returned { result ≡ next_hop_at self.now node source }
        // after any calls
        ensures no_cycle { All NoCycle self.now }
        ensures owner_has_none { All OwnerHasNoPick self.now }
    {
        if source >= self.sources.len() {
            return None;
        }
        self.sources[source].next_hop(node)
    }

    /// Makes the step of the source, or refuses it and changes nothing.
    fn step(&mut self, source: usize, step: Step) -> Result<(), MachineFault>
        ensures ok { OnOk result (StepsAt self.old source step self.new) }
        ensures allowed { OnOk result (IsAllowedAt self.old source step) }
        ensures refused { IfErr result (RefusedAt self.old source step) }
        ensures err { OnErr result (self.new ≡ self.old) }
    {
        if source >= self.sources.len() {
            return Err(MachineFault::OutOfRange);
        }
        self.sources[source].step(step)
    }
}

/// A source for each owner, for which none of the nodes has done anything.
fn sources_of(alloc: Global, nodes: usize, owners: &[usize]) -> Result<Vec<Source>, AllocError>
    ensures { IfOk result (λ sources. sources.items ≡ first_states nodes owners.now) }
{
    let mut sources = Vec::with_capacity(alloc, owners.len())?;
    for owner in owners {
        sources.push(Source::new(alloc, nodes, *owner)?)?;
    }
    Ok(sources)
}
