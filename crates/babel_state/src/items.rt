//! What a speaker has queued: the items that wait to be sent, and where they go.

use babel_message::Message;
use babel_value::{Addr, Peer, Prefix, Seqno, Source};

/// Where a datagram goes.
#[derive(Clone, Copy, Debug, PartialEq, Eq)]
pub struct Target {
    /// The number of the interface over which it goes.
    pub iface: u8,
    /// The one address that it is for; `None`: it is for all on the interface.
    pub to: Option<Addr>,
}

/// Something that is queued. An item determines which message is sent, and has nothing that can
/// change until it is: an Update's router-id, seqno and metric are read when the message is built.
#[derive(Clone, Copy)]
pub enum Item {
    /// A Hello to all on the interface (RFC 8966, section 3.4.1).
    Hello {
        /// The interface's number.
        iface: u8,
    },
    /// An IHU about a neighbour, to all on its interface (RFC 8966, section 3.4.2).
    Ihu {
        /// The neighbour.
        peer: Peer,
    },
    /// An Update of a prefix, or its retraction (RFC 8966, section 3.7).
    Update {
        /// Where it goes.
        target: Target,
        /// The prefix.
        prefix: Prefix,
    },
    /// A Seqno Request (RFC 8966, section 3.8.1.2).
    Request {
        /// Whom it asks.
        peer: Peer,
        /// Whose seqno it asks for.
        source: Source,
        /// The seqno that is wanted.
        seqno: Seqno,
        /// How far it may go.
        hops: u8,
    },
    /// An Acknowledgment (RFC 8966, section 3.3).
    Ack {
        /// Who asked for it.
        peer: Peer,
        /// What it has to repeat.
        opaque: u16,
    },
}

/// The message of an item at the moment at which it is sent.
#[derive(Clone, Copy)]
pub enum Outgoing {
    /// Nothing: what it was about is gone, or the interface can't carry it.
    Nothing,
    /// Nothing, since the source table has no room for what would have to be kept of it.
    LeftOut,
    /// This message, to this target.
    Message(Target, Message),
}
