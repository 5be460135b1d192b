//! What the route of a prefix is chosen from.

ghost use Rattle.std.specs.Prelude.{◌≡◌, ℕ};
ghost use Rattle.babel_value.specs.declared.keys.Peer.{Peer};
ghost use Rattle.babel_choice.specs.Origins.{is_own};

use crate::{Entry, RouteKey};
use babel_sources::{SourceEntry, SourcesOver};
use babel_table::Table;
use babel_value::{Metric, Peer, Source};

/// The costs of the links to the neighbours now (RFC 8966, section 3.4.3).
pub trait Costs {
    ghost cost_of: { Self → Peer → ℕ };

    /// The cost of the link to the neighbour.
    fn cost(&self, peer: &Peer) -> Metric
        ensures { result ≡ cost_of self.now peer.now };

    /// The same of a neighbour that mostly comes after the one that was looked up last, as the
    /// neighbours of a prefix's routes do. It only matters for speed.
    fn cost_in_turn(&self, peer: &Peer) -> Metric
        ensures { result ≡ cost_of self.now peer.now }
    {
        self.cost(peer)
    }
}

/// The tables from which the candidates of a prefix come (RFC 8966, section 3.6).
#[derive(Drop)]
pub struct ChoiceInputs<'a, E: Table<RouteKey, Entry>, T: Table<Source, SourceEntry>, C: Costs> {
    /// The routes.
    pub entries: &'a E,
    /// The source table.
    pub sources: &'a SourcesOver<T>,
    /// The costs of links.
    pub costs: &'a C,
}

/// Who announces a prefix.
#[derive(Clone, Copy)]
pub enum Origin {
    /// The speaker itself: it selects no route to it.
    Own,
    /// Other routers, if any.
    Learned,
}

impl Origin {
    /// Whether the speaker itself announces it.
    #[inline]
    pub fn is_own(self) -> bool
        ensures { result ≡ is_own self }
    {
        match self {
            Origin::Own => true,
            Origin::Learned => false,
        }
    }
}
