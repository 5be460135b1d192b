//! A TLV among octets.

/// A TLV or sub-TLV at its offset among the octets that were split (RFC 8966, sections 4.3 and
/// 4.4).
#[derive(Clone, Copy, Debug, PartialEq, Eq)]
pub struct Tlv<'a> {
    /// How many octets precede its type.
    pub offset: usize,
    /// Its type.
    pub kind: u8,
    /// The octets after its length, none for Pad1.
    pub payload: &'a [u8],
}
