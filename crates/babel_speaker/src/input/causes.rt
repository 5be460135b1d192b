//! What a reselection follows.

use babel_value::{Peer, RouterId};
use std::marker::Model;

/// An update that wasn't feasible: its sender, and the router-id that it named.
#[derive(Clone, Copy)]
pub struct UnfeasibleUpdate {
    /// The neighbour that sent it.
    pub peer: Peer,
    /// The router-id of the route.
    pub router: RouterId,
}

impl Model for UnfeasibleUpdate {
    ghost use Rattle.babel_state.specs.Reselection.{UnfeasibleUpdate};

    ghost Value = { UnfeasibleUpdate };

    ghost view = { λ u. record { peer = u.peer; router = u.router } };

    ghost inverse = { λ v. record { peer = v.peer; router = v.router } };
}
