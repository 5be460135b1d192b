//! What a tick, a Hello or an IHU may change of the links' costs.

ghost use Rattle.std.specs.Prelude.{◌≡◌, ◌≢◌, ◌⊎◌};
ghost use Rattle.babel_value.specs.declared.keys.Peer.{Peer};
ghost use Rattle.babel_link.specs.declared.changes.CostChanges.TheVariants.{Nothing, One, Several};
ghost use Rattle.babel_link.specs.declared.changes.LinkCost.TheVariants.{Kept, Changed};

use crate::Heard;
use babel_value::Peer;

/// What a tick changed of all that the costs of the links depend on.
#[derive(Clone, Copy)]
pub enum CostChanges {
    /// No cost, and no neighbour is flushed.
    Nothing,
    /// The cost of the link to this neighbour alone, and no neighbour is flushed.
    One(Peer),
    /// The costs of several links, or a neighbour is flushed.
    Several,
}

impl CostChanges {
    /// Adds what was changed of the cost of the link to this neighbour.
    #[inline(always)]
    pub(crate) fn add(&mut self, peer: &Peer, cost: LinkCost)
        ensures nothing { self.new ≡ Nothing → (self.old ≡ Nothing) × (cost ≡ Kept) }
        ensures one { (q : Peer) → self.new ≡ One q → ((self.old ≡ One q) × (cost ≡ Kept)) ⊎ ((self.old ≡ Nothing) × (peer.now ≡ q)) }
        ensures known { self.new ≢ Several → self.old ≢ Several }
        ensures kept { cost ≡ Kept → self.new ≡ self.old }
        ensures first { cost ≡ Changed → self.old ≡ Nothing → self.new ≡ One peer.now }
        ensures more { cost ≡ Changed → self.old ≢ Nothing → self.new ≡ Several }
    {
        if let LinkCost::Changed = cost {
            *self = match self {
                CostChanges::Nothing => CostChanges::One(*peer),
                _ => CostChanges::Several,
            };
        }
    }
}

/// What a Hello, an IHU or a tick changed of all that the cost of a link depends on.
#[derive(Clone, Copy)]
pub enum LinkCost {
    /// Nothing: the link costs what it did.
    Kept,
    /// Something: the link costs more or less.
    Changed,
}

/// What a Hello did.
#[derive(Clone, Copy)]
pub struct HelloEffect {
    /// What it means for its sender.
    pub heard: Heard,
    /// What it changed of the cost of the link.
    pub cost: LinkCost,
}
