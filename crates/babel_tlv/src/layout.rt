//! The layout of a TLV or sub-TLV (RFC 8966, sections 4.3 and 4.4). `laws::layout_is_standard` ties
//! each constant to the number of the definitions.

/// The type of Pad1, which is this one octet alone (RFC 8966, sections 4.6.1 and 4.7.1).
pub const PAD1: u8 = 0;

/// The octets before the payload of each TLV but Pad1: its type and its length (RFC 8966, section
/// 4.3).
pub const TLV_HEADER_LEN: usize = 2;

/// The most octets of a payload: the greatest length that one octet can hold (RFC 8966, section
/// 4.3).
pub const MAX_PAYLOAD_LEN: usize = 255;

/// The most octets of a datagram that is built.
pub const DATAGRAM_LEN: usize = 1024;
