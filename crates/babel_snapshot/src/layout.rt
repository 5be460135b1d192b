//! The layout of a snapshot. Lengths and offsets are in octets, and numbers have the most
//! significant octet first.

/// The first octets of each snapshot, "BBS1".
pub(crate) const BEGINNING: [u8; 4] = [0x42, 0x42, 0x53, 0x31];
/// The length of the head.
pub const HEAD_LEN: usize = 24;
/// The length of a record.
pub const RECORD_LEN: usize = 30;
/// The most records that a snapshot has: a source table has room for so many sources.
pub const MAX_RECORDS: usize = 512;

/// The octets of a router-id.
pub(crate) const ROUTER_ID_LEN: usize = 8;
/// The octets of an IPv4 address.
pub(crate) const IPV4_LEN: usize = 4;
/// The octets of an IPv6 address.
pub(crate) const IPV6_LEN: usize = 16;

/// The head: offsets of its fields.
pub(crate) mod head {
    /// The own router-id, after the beginning.
    pub const ROUTER_ID: usize = 4;
    /// The own seqno.
    pub const SEQNO: usize = 12;
    /// How often the own seqno grew.
    pub const RAISES: usize = 14;
    /// The number of records.
    pub const COUNT: usize = 22;
}

/// A record: the families, and the offsets of its fields after the family.
pub(crate) mod source_record {
    /// The family of an IPv4 address.
    pub const IPV4: u8 = 1;
    /// The family of an IPv6 address.
    pub const IPV6: u8 = 2;
    /// The address.
    pub const ADDR: usize = 1;
    /// The zeros after an IPv4 address.
    pub const FILLING: usize = 5;
    /// The prefix length.
    pub const LENGTH: usize = 17;
    /// The router-id.
    pub const ROUTER_ID: usize = 18;
    /// The seqno. The octets up to here name the source.
    pub const SEQNO: usize = 26;
    /// The metric.
    pub const METRIC: usize = 28;
}
