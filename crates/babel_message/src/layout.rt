//! The layout of a datagram and of its TLVs (RFC 8966, section 4), which reader and builder share.
//!
//! Lengths and offsets are in octets. The offset of a TLV's field counts from the first octet of
//! the payload. `LEN` of a TLV is the length of its fields before address, prefix and sub-TLVs.
//! `laws::layout_is_standard` ties each constant to the number of the definitions.

/// The header of a datagram (RFC 8966, section 4.2).
pub mod header {
    /// The first octet of each datagram.
    pub const MAGIC: u8 = 42;
    /// The second octet of each datagram.
    pub const VERSION: u8 = 2;
    /// The offset of the magic number.
    pub const MAGIC_AT: usize = 0;
    /// The offset of the version.
    pub const VERSION_AT: usize = 1;
    /// The offset of the body's length, a number in two octets.
    pub const BODY_LEN_AT: usize = 2;
    /// How many octets precede the body.
    pub const LEN: usize = 4;
}

/// The types of TLVs (RFC 8966, section 4.6), and of the sub-TLVs that must be understood.
pub mod kinds {
    /// The type of a PadN (RFC 8966, section 4.6.2).
    pub const PAD_N: u8 = 1;
    /// The type of an Acknowledgment Request (RFC 8966, section 4.6.3).
    pub const ACK_REQUEST: u8 = 2;
    /// The type of an Acknowledgment (RFC 8966, section 4.6.4).
    pub const ACK: u8 = 3;
    /// The type of a Hello (RFC 8966, section 4.6.5).
    pub const HELLO: u8 = 4;
    /// The type of an I Heard You (RFC 8966, section 4.6.6).
    pub const IHU: u8 = 5;
    /// The type of a Router-Id (RFC 8966, section 4.6.7).
    pub const ROUTER_ID: u8 = 6;
    /// The type of a Next Hop (RFC 8966, section 4.6.8).
    pub const NEXT_HOP: u8 = 7;
    /// The type of an Update (RFC 8966, section 4.6.9).
    pub const UPDATE: u8 = 8;
    /// The type of a Route Request (RFC 8966, section 4.6.10).
    pub const ROUTE_REQUEST: u8 = 9;
    /// The type of a Seqno Request (RFC 8966, section 4.6.11).
    pub const SEQNO_REQUEST: u8 = 10;
    /// The least type of a sub-TLV that must be understood (RFC 8966, section 4.4).
    pub const MANDATORY: u8 = 128;
}

/// The encodings of addresses (RFC 8966, section 4.1.4), and the lengths of addresses and
/// router-ids.
pub mod addresses {
    /// The encoding of the wildcard: no address.
    pub const AE_WILDCARD: u8 = 0;
    /// The encoding of an IPv4 address.
    pub const AE_IPV4: u8 = 1;
    /// The encoding of an IPv6 address.
    pub const AE_IPV6: u8 = 2;
    /// The encoding of an IPv6 address in fe80::/64, by its octets after that prefix.
    pub const AE_LINK_LOCAL: u8 = 3;
    /// The octets of an IPv4 address.
    pub const IPV4_LEN: usize = 4;
    /// The octets of an IPv6 address.
    pub const IPV6_LEN: usize = 16;
    /// The octets of an address in fe80::/64 after that prefix.
    pub const LINK_LOCAL_LEN: usize = 8;
    /// The octets of a router-id (RFC 8966, section 4.1.3).
    pub const ROUTER_ID_LEN: usize = 8;
}

/// Acknowledgment Request (RFC 8966, section 4.6.3).
pub mod ack_request {
    /// The offset of the opaque value.
    pub const OPAQUE: usize = 2;
    /// The offset of the interval.
    pub const INTERVAL: usize = 4;
    /// The length of the fields.
    pub const LEN: usize = 6;
}

/// Acknowledgment (RFC 8966, section 4.6.4).
pub mod ack {
    /// The offset of the opaque value.
    pub const OPAQUE: usize = 0;
    /// The length of the fields.
    pub const LEN: usize = 2;
}

/// Hello (RFC 8966, section 4.6.5).
pub mod hello {
    /// The offset of the flags, a number in two octets.
    pub const FLAGS: usize = 0;
    /// The offset of the seqno.
    pub const SEQNO: usize = 2;
    /// The offset of the interval.
    pub const INTERVAL: usize = 4;
    /// The length of the fields.
    pub const LEN: usize = 6;
    /// The flag of a unicast Hello.
    pub const UNICAST: u16 = 0x8000;
}

/// I Heard You (RFC 8966, section 4.6.6). The address follows the fields.
pub mod ihu {
    /// The offset of the address encoding.
    pub const AE: usize = 0;
    /// The offset of the rxcost.
    pub const RXCOST: usize = 2;
    /// The offset of the interval.
    pub const INTERVAL: usize = 4;
    /// The length of the fields.
    pub const LEN: usize = 6;
}

/// Router-Id (RFC 8966, section 4.6.7).
pub mod router_id {
    /// The offset of the router-id.
    pub const VALUE: usize = 2;
    /// The length of the fields.
    pub const LEN: usize = 10;
}

/// Next Hop (RFC 8966, section 4.6.8). The address follows the fields.
pub mod next_hop {
    /// The offset of the address encoding.
    pub const AE: usize = 0;
    /// The length of the fields.
    pub const LEN: usize = 2;
}

/// Update (RFC 8966, section 4.6.9). The prefix follows the fields.
pub mod update {
    /// The offset of the address encoding.
    pub const AE: usize = 0;
    /// The offset of the flags, one octet.
    pub const FLAGS: usize = 1;
    /// The offset of the prefix length.
    pub const PLEN: usize = 2;
    /// The offset of the number of omitted octets.
    pub const OMITTED: usize = 3;
    /// The offset of the interval.
    pub const INTERVAL: usize = 4;
    /// The offset of the seqno.
    pub const SEQNO: usize = 6;
    /// The offset of the metric.
    pub const METRIC: usize = 8;
    /// The length of the fields.
    pub const LEN: usize = 10;
    /// The flag of an Update whose prefix becomes the default prefix.
    pub const SETS_PREFIX: u8 = 0x80;
    /// The flag of an Update whose prefix's address has the router-id.
    pub const SETS_ROUTER_ID: u8 = 0x40;
}

/// Route Request (RFC 8966, section 4.6.10). The prefix follows the fields.
pub mod route_request {
    /// The offset of the address encoding.
    pub const AE: usize = 0;
    /// The offset of the prefix length.
    pub const PLEN: usize = 1;
    /// The length of the fields.
    pub const LEN: usize = 2;
}

/// Seqno Request (RFC 8966, section 4.6.11). The prefix follows the fields.
pub mod seqno_request {
    /// The offset of the address encoding.
    pub const AE: usize = 0;
    /// The offset of the prefix length.
    pub const PLEN: usize = 1;
    /// The offset of the seqno.
    pub const SEQNO: usize = 2;
    /// The offset of the hop count, one octet.
    pub const HOPS: usize = 4;
    /// The offset of the router-id.
    pub const ROUTER_ID: usize = 6;
    /// The length of the fields.
    pub const LEN: usize = 14;
}
