//! The messages that a datagram can carry (RFC 8966, sections 4.6.3 to 4.6.11).

use babel_value::{Addr, Metric, Prefix, RouterId, Seqno};

/// A whole message: the fields that an Update takes from the parser state are filled in. Intervals
/// are in centiseconds.
#[derive(Clone, Copy, Debug, PartialEq, Eq)]
pub enum Message {
    /// A request for an `Ack` with the same opaque value within the interval (RFC 8966, section
    /// 4.6.3).
    AckRequest {
        /// The value that the `Ack` repeats.
        opaque: u16,
        /// Within how many centiseconds the `Ack` is to be sent.
        interval: u16,
    },
    /// The reply to an `AckRequest` (RFC 8966, section 4.6.4).
    Ack {
        /// The value of the `AckRequest`.
        opaque: u16,
    },
    /// The sender is alive, and sends its next Hello of this kind within the interval (RFC 8966,
    /// section 4.6.5).
    Hello {
        /// Whether it is a unicast Hello.
        unicast: bool,
        /// The number of this Hello among those of its kind.
        seqno: Seqno,
        /// In centiseconds; 0 if no next Hello is scheduled.
        interval: u16,
    },
    /// The sender receives from `to` at this cost (RFC 8966, section 4.6.6).
    Ihu {
        /// The node that the IHU is for, `None` for any receiver.
        to: Option<Addr>,
        /// The sender's cost of receiving, above 0; infinite if it doesn't hear the node.
        rxcost: Metric,
        /// In centiseconds, above 0: the next IHU is sent within it.
        interval: u16,
    },
    /// A route with a finite metric (RFC 8966, section 4.6.9).
    Update {
        /// The prefix of the route.
        prefix: Prefix,
        /// The router that originates the prefix.
        router: RouterId,
        /// The next hop, of the prefix's family.
        next_hop: Addr,
        /// The seqno of the source.
        seqno: Seqno,
        /// The sender's metric, less than infinity.
        metric: Metric,
        /// In centiseconds, above 0: the next Update is sent within it.
        interval: u16,
    },
    /// The sender's route to the prefix is gone (RFC 8966, section 4.6.9, metric infinity).
    Retraction {
        /// The prefix of the route.
        prefix: Prefix,
        /// In centiseconds.
        interval: u16,
    },
    /// All of the sender's routes are gone (RFC 8966, section 4.6.9, AE 0).
    RetractAll {
        /// In centiseconds.
        interval: u16,
    },
    /// A request for an Update of the prefix (RFC 8966, section 4.6.10).
    RouteRequest {
        /// The prefix of the route.
        prefix: Prefix,
    },
    /// A request for all routes (RFC 8966, section 4.6.10, AE 0).
    DumpRequest,
    /// A request for a route of the source with at least this seqno (RFC 8966, section 4.6.11).
    SeqnoRequest {
        /// The prefix of the source.
        prefix: Prefix,
        /// The router-id of the source.
        router: RouterId,
        /// The least seqno that is accepted.
        seqno: Seqno,
        /// How many hops the request may still go, above 0.
        hops: u8,
    },
}
