//! What a reselection changes of the selection of a prefix.

ghost use Rattle.std.specs.Prelude.{◌≡◌};

use babel_value::{Peer, RouterId, Seqno};

/// How the origin of a prefix's selected route changed. What is advertised at once, and asked for,
/// depends on it (RFC 8966, sections 3.7.2 and 3.8.2.1).
#[derive(Clone, Copy, Debug, PartialEq, Eq)]
pub enum OriginChange {
    /// The route is of the same router as before, or there was and is none.
    Same,
    /// The route is new, or of another router.
    New,
    /// There is no route any more.
    Lost {
        /// The router that announced it.
        router: RouterId,
        /// The seqno of its advertisement.
        seqno: Seqno,
    },
}

/// Whether the same is reported of a selected route: its neighbour, next hop, router-id, seqno and
/// metric.
#[derive(Clone, Copy, Debug, PartialEq, Eq)]
pub enum Report {
    /// It is. Interval and deadline may differ.
    Alike,
    /// It isn't.
    Other,
}

/// What a reselection changed of the selection of a prefix. What follows from it depends on nothing
/// else of the old and the new selection, and this is a third as long as one of them.
#[derive(Clone, Copy, Debug, PartialEq, Eq)]
pub struct SelectionChange {
    /// The neighbour that was selected before, if one was.
    pub before: Option<Peer>,
    /// How the origin of the route changed.
    pub origin: OriginChange,
    /// Whether the same is reported of it.
    pub report: Report,
}

impl SelectionChange {
    /// The change of a selection that stays, but for its interval and its deadline.
    #[inline(always)]
    pub fn kept(before: Option<Peer>) -> SelectionChange
        ensures { result ≡ record { before = before; origin = OriginChange.Same; report = Report.Alike } }
    {
        SelectionChange {
            before,
            origin: OriginChange::Same,
            report: Report::Alike,
        }
    }
}
