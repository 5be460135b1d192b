//! What may happen in a network.

use babel_value::Prefix;

/// One event of a network. Moments are in centiseconds. A datagram that no event delivers is lost.
#[derive(Clone, Copy, Debug, PartialEq, Eq)]
pub enum Event {
    /// The node's timers run (RFC 8966, appendix B).
    Tick {
        node: usize,
        now: u64,
    },
    /// The node sends its next datagram, if any. The network records it.
    Emit {
        node: usize,
        now: u64,
    },
    /// The node receives the recorded datagram of this number over one of its interfaces.
    Deliver {
        datagram: usize,
        node: usize,
        iface: u8,
        now: u64,
    },
    /// The nominal cost of an interface of the node changes (RFC 8966, appendix A.2.1).
    SetCost {
        node: usize,
        iface: u8,
        cost: u16,
    },
    /// The node's own seqno grows by 1 (RFC 8966, section 3.7.3).
    Raise {
        node: usize,
    },
    /// The node requests a greater seqno for each route that it would select if that were feasible
    /// (RFC 8966, section 3.8.2.2).
    RequestSeqnos {
        node: usize,
        now: u64,
    },
    /// An interface of the node is down: its links cost infinity until its neighbours report another
    /// cost (RFC 8966, section 3.4.3).
    LoseLinks {
        node: usize,
        iface: u8,
        now: u64,
    },
    /// What the node has pending is brought into groups, each of which goes to one target (RFC 8966,
    /// section 4).
    GroupItems {
        node: usize,
    },
    /// The node announces a prefix of its configuration.
    Announce {
        node: usize,
        prefix: Prefix,
    },
    /// The node announces a prefix no longer.
    Withdraw {
        node: usize,
        prefix: Prefix,
    },
    /// The node's speaker is saved and restored with the node's configuration, in one step. It goes
    /// on with its source table and own seqno (RFC 8966, sections 3.2.5 and 3.2.2) alone.
    Restart {
        node: usize,
        now: u64,
    },
}
