//! What `receive` returns of a datagram that it takes: a note for each TLV.

use babel_message::Reason;
use babel_value::Distance;

/// What became of a TLV.
#[derive(Clone, Copy, Debug, PartialEq, Eq)]
pub enum Verdict {
    /// It only sets state for later TLVs (RFC 8966, sections 4.6.7 and 4.6.8).
    State,
    /// I1 to I13: it can't be used.
    Ignored(Reason),
    /// V1: it was taken.
    Taken,
    /// V2: the update isn't feasible against this distance of its source (RFC 8966, section 3.5.1).
    Unfeasible(Distance),
    /// V3: the update carries the speaker's own router-id.
    OwnRouterId,
    /// V4: the sender is no neighbour.
    UnknownNeighbour,
    /// V5: the neighbour or the route is new, and there is no room for it.
    TableFull,
    /// V6: the IHU is for another address.
    OtherAddress,
    /// V7: there is no route that could be retracted.
    NoEntry,
    /// V8: a request for this seqno, or a later one, is pending (RFC 8966, section 3.8.1.2).
    Redundant,
    /// V9: the request can't be forwarded (RFC 8966, section 3.8.1.2).
    NotForwarded,
}

/// What became of the TLV at an offset.
#[derive(Clone, Copy, Debug, PartialEq, Eq)]
pub struct Note {
    /// How many octets of the datagram precede the TLV's type.
    pub offset: usize,
    /// What became of it.
    pub verdict: Verdict,
}
