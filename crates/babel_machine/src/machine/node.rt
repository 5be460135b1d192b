//! What one node has done for a source.

ghost use Rattle.std.specs.Prelude.{◌≡◌, ◌↔◌, IsTrue, All, Contains, OnOk, OnErr};

use super::pair::Pair;
use super::pick::Pick;
use std::alloc::{AllocError, Global};
use std::marker::Model;

/// The pairs that the node ever sent for the source, none of them twice, and its pick.
#[derive(Drop)]
pub struct Node {
    sent: Vec<Pair>,
    pick: Option<Pick>,
}

impl Model for Node {
    ghost use Rattle.babel_machine.specs.Machine.{NodeState};

    ghost Value = { NodeState };

    ghost view = { λ node. record { sent = node.sent.items; pick = node.pick } };
}

impl Node {
    ghost use Rattle.babel_machine.specs.Machine.{quiet, Adds, IsBetterPair};

    /// A node that has done nothing.
    pub fn new(alloc: Global) -> Self
        ensures { result ≡ quiet }
    {
        Node {
            sent: Vec::new(alloc),
            pick: None,
        }
    }

    /// What it picked, if anything.
    pub fn pick(&self) -> Option<Pick>
        ensures { result ≡ self.now.pick }
    {
        self.pick
    }

    /// Whether it ever sent the pair.
    pub fn has_sent(&self, pair: Pair) -> bool
        ensures { IsTrue result ↔ Contains self.now.sent pair }
    {
        pair.is_among(&self.sent)
    }

    /// Whether the pair is better than everything that it ever sent.
    pub fn is_exceeded(&self, pair: Pair) -> bool
        ensures { IsTrue result ↔ All (λ own. IsBetterPair pair own) self.now.sent }
    {
        pair.is_best(&self.sent)
    }

    /// Adds the pair to those that it ever sent. A pair that is among them takes no memory.
    pub fn send(&mut self, pair: Pair) -> Result<(), AllocError>
        ensures adds { OnOk result (Adds pair self.old.sent self.new.sent) }
        ensures pick { OnOk result (self.new ≡ record self.old { sent = self.new.sent }) }
        ensures new { OnErr result (¬ Contains self.old.sent pair) }
        ensures err { OnErr result (self.new ≡ self.old) }
    {
        if self.has_sent(pair) {
            return Ok(());
        }
        self.sent.push(pair)?;
        Ok(())
    }

    /// Makes this its pick.
    pub fn set_pick(&mut self, pick: Option<Pick>)
        ensures { self.new ≡ record self.old { pick = pick } }
    {
        self.pick = pick;
    }
}
