//! The selected route to a prefix, as a speaker reports it.

ghost use Rattle.std.specs.Prelude.{◌≡◌};
ghost use Rattle.babel_state.specs.Calls.{choice_of};

use babel_value::{Addr, Distance, Metric, Peer, RouterId, Seqno};

/// The selected route to a prefix (RFC 8966, section 3.6).
#[derive(Clone, Copy, Debug, PartialEq, Eq)]
pub struct Selected {
    /// The neighbour that it leads over.
    pub peer: Peer,
    /// The next hop that the neighbour advertised.
    pub next_hop: Addr,
    /// The router that announces the prefix.
    pub router: RouterId,
    /// The seqno and the metric that the neighbour advertised.
    pub distance: Distance,
    /// The metric over the link to the neighbour.
    pub metric: Metric,
}

impl Selected {
    /// What a log names of it.
    #[inline]
    pub fn choice(&self) -> Choice
        ensures { result ≡ choice_of self.now }
    {
        Choice {
            peer: self.peer,
            metric: self.metric,
            router: self.router,
            seqno: self.distance.seqno,
        }
    }
}

/// What a log names of the selected route to a prefix.
#[derive(Clone, Copy, Debug, PartialEq, Eq)]
pub struct Choice {
    /// The neighbour that it leads over.
    pub peer: Peer,
    /// The metric over the link to the neighbour.
    pub metric: Metric,
    /// The router that announces the prefix.
    pub router: RouterId,
    /// The seqno that the neighbour advertised.
    pub seqno: Seqno,
}

/// What became of the choice that a log named last of a prefix.
#[derive(Clone, Copy, Debug)]
pub enum LastChoice {
    /// It is named again.
    Kept,
    /// This is named now. It may be the same.
    Now(Option<Choice>),
}
