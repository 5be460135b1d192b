//! What is sent: when and to whom, and of what an Update is made.

use babel_state::{InterfaceEntry, Target};
use babel_value::{Distance, Source};

/// When, in centiseconds, and to whom a datagram is sent.
#[derive(Clone, Copy)]
pub struct Departure {
    /// The moment.
    pub now: u64,
    /// Its interface, and its receivers.
    pub target: Target,
}

/// To whom a message is sent, and over which interface.
#[derive(Clone, Copy)]
pub struct Egress<'a> {
    /// Its receivers.
    pub target: Target,
    /// The target's interface.
    pub interface: &'a InterfaceEntry,
}

/// A route with a finite metric, as it is advertised.
#[derive(Clone, Copy)]
pub struct Advertisement {
    /// Its prefix and its router-id.
    pub source: Source,
    /// Its seqno and its metric.
    pub distance: Distance,
}
