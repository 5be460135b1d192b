//! Pending requests for a seqno (RFC 8966, section 3.2.7).

use babel_table::Due;
use babel_value::{Peer, Seqno};

/// What a pending request does when its wait is over.
#[derive(Clone, Copy, Debug, PartialEq, Eq)]
pub enum Resend {
    /// The route was lost: all neighbours are asked again that have a finite and unfeasible route
    /// to the prefix.
    Unfeasible,
    /// The neighbour sent an unfeasible update of the selected route, or of a better one: it is
    /// asked again.
    Neighbour(Peer),
    /// The request was forwarded for another router, which repeats it by itself.
    Never,
}

/// A request for a seqno that wasn't satisfied yet.
#[derive(Clone, Copy, Debug, PartialEq, Eq)]
pub struct PendingRequest {
    /// The seqno that is wanted.
    pub seqno: Seqno,
    /// What happens when the wait is over.
    pub resend: Resend,
    /// How long the request waits, in centiseconds.
    pub wait: u16,
    /// The moment at which the wait is over.
    pub due: u64,
}

impl Due for PendingRequest {
    ghost due_of = { λ request. request.due };

    fn due(&self) -> u64 {
        self.due
    }
}
