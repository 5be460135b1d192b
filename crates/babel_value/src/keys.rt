//! The keys of the tables (RFC 8966, sections 3.2.4 and 3.2.5).

use crate::{Addr, Prefix, RouterId};

/// A source: a prefix, and the router that originates it (RFC 8966, section 3.2.5). Sources are
/// ordered by prefix, then router-id.
#[derive(Clone, Copy, Debug, PartialEq, Eq, PartialOrd, Ord, Hash)]
pub struct Source {
    /// The prefix.
    pub prefix: Prefix,
    /// The router that originates it.
    pub router: RouterId,
}

/// A neighbour, or a node that may become one: an address at an interface (RFC 8966, section
/// 3.2.4). Peers are ordered by interface, then address.
#[derive(Clone, Copy, Debug, Default, PartialEq, Eq, PartialOrd, Ord, Hash)]
pub struct Peer {
    /// The interface's number, counted from 0.
    pub iface: u8,
    /// The address that its datagrams come from.
    pub addr: Addr,
}
