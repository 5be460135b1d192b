//! The places of a datagram: one for each TLV, with its meaning or the reason why it is ignored.

use crate::Message;

/// A TLV of a datagram.
#[derive(Clone, Copy, Debug, PartialEq, Eq)]
pub struct Placed {
    /// How many octets of the datagram precede the TLV's type.
    pub offset: usize,
    /// Its meaning.
    pub content: Content,
}

/// The meaning of a TLV.
#[derive(Clone, Copy, Debug, PartialEq, Eq)]
pub enum Content {
    /// A message.
    Message(Message),
    /// A Router-Id or Next Hop, which sets the parser state for later TLVs (RFC 8966, sections
    /// 4.6.7 and 4.6.8).
    State,
    /// Nothing, for this reason.
    Ignored(Reason),
}

/// Why a TLV is ignored, in the order in which the reasons are tested. The text is the code that
/// the program prints.
#[derive(Clone, Copy, Debug, PartialEq, Eq)]
pub enum Reason {
    /// I1: Pad1 or PadN (RFC 8966, sections 4.6.1 and 4.6.2).
    Padding,
    /// I2: a type above 10 (RFC 8966, section 4.4).
    UnknownType,
    /// I3: its fields, address or prefix aren't whole, or the prefix length is too large.
    Unreadable,
    /// I4: a sub-TLV runs past the end of the TLV.
    TailOverrun,
    /// I5: a sub-TLV of this type, 128 or more, must be understood and isn't (RFC 8966, section
    /// 4.4).
    MandatorySubTlv(u8),
    /// I6: an address encoding that the TLV doesn't have (RFC 8966, section 4.1.4).
    UnknownEncoding,
    /// I7: octets of the prefix are omitted, and no earlier Update has set them (RFC 8966, section
    /// 4.6.9).
    NoDefaultPrefix,
    /// I8: the parser state has no router-id, or a reserved one (RFC 8966, sections 4.1.3 and 4.5).
    NoRouterId,
    /// I9: the parser state has no next hop of the prefix's family (RFC 8966, section 4.5).
    NoNextHop,
    /// I10: an Update or IHU with interval 0.
    ZeroInterval,
    /// I11: an IHU with cost 0.
    ZeroRxcost,
    /// I12: the wildcard encoding with fields that it doesn't allow (RFC 8966, sections 4.6.9 to
    /// 4.6.11).
    Wildcard,
    /// I13: a Seqno Request whose hop count is 0 (RFC 8966, section 4.6.11).
    NoHops,
}
