//! What is received: when and from whom, and what a message means.

use babel_value::{Addr, Metric, Peer, Seqno};

/// When, in centiseconds, and from whom a datagram came.
#[derive(Clone, Copy)]
pub struct Arrival {
    /// The moment.
    pub time: u64,
    /// The interface over which it came, and its source address.
    pub peer: Peer,
}

/// A Hello (RFC 8966, section 4.6.5).
#[derive(Clone, Copy)]
pub struct ReceivedHello {
    /// Whether it is a unicast Hello.
    pub unicast: bool,
    /// Its seqno.
    pub seqno: Seqno,
    /// Its interval, in centiseconds.
    pub interval: u16,
}

/// An IHU (RFC 8966, section 4.6.6). Its fields are where they were read, since of one for another
/// node no more is looked at.
#[derive(Clone, Copy)]
pub struct ReceivedIhu<'a> {
    /// The address of the node that it is for, or `None` if it is for all.
    pub to: &'a Option<Addr>,
    /// The cost of receiving from that node.
    pub rxcost: &'a Metric,
    /// Its interval, in centiseconds.
    pub interval: &'a u16,
}
