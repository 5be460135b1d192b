//! What a speaker keeps of an interface (RFC 8966, section 3.2.3).

use babel_value::{Family, Metric, Seqno};

/// An interface. What a speaker doesn't need of its configuration, the list of peers, isn't here.
#[derive(Clone, Copy, Debug, PartialEq, Eq)]
pub struct InterfaceEntry {
    /// The family of the addresses over which datagrams are sent.
    pub transport: Family,
    /// The IPv4 address, and the length of its network's prefix.
    pub ipv4: Option<([u8; 4], u8)>,
    /// The IPv6 address.
    pub ipv6: Option<[u8; 16]>,
    /// The nominal cost (RFC 8966, appendix A.2.1).
    pub cost: Metric,
    /// The interval between two Hellos, in centiseconds.
    pub hello: u16,
    /// The seqno of the next Hello (RFC 8966, section 3.2.3).
    pub hello_seqno: Seqno,
    /// From when on a Hello is due; none before the first tick.
    pub hello_due: Option<u64>,
    /// From when on IHUs are due; none before the first tick.
    pub ihu_due: Option<u64>,
    /// From when on Updates are due; none before the first tick.
    pub update_due: Option<u64>,
}
