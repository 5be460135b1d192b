//! The codes of a report, each with its sentence.

use babel_message::{Reason, Refusal};
use std::fmt;

/// A code that `show` or `replay` prints in a line of its output. The variant has the code's name.
#[derive(Clone, Copy)]
pub enum ReportCode {
    /// No interface of this number.
    S1,
    /// A source that isn't on the interface's link.
    S2,
    /// An own address.
    S3,
    /// Fewer octets than a header has.
    P1,
    /// Not Babel.
    P2,
    /// Another version.
    P3,
    /// A body that is longer than the datagram.
    P4,
    /// A TLV that runs past the body.
    P5,
    /// An allocation failed.
    P6,
    /// A cost of an interface that there isn't.
    E1,
    /// A cost that is out of range.
    E2,
    /// The message was taken.
    V1,
    /// The update isn't feasible (RFC 8966, section 3.5.1).
    V2,
    /// The update has the own router-id.
    V3,
    /// The sender is no neighbour.
    V4,
    /// A table is full.
    V5,
    /// The IHU is for another address.
    V6,
    /// There is no route to retract.
    V7,
    /// A request is pending already.
    V8,
    /// The request isn't forwarded.
    V9,
    /// Padding.
    I1,
    /// An unknown type.
    I2,
    /// Fields that aren't whole.
    I3,
    /// A sub-TLV that runs past its TLV.
    I4,
    /// A mandatory sub-TLV of an unknown type.
    I5,
    /// An address encoding that the TLV doesn't take.
    I6,
    /// No default prefix.
    I7,
    /// No router-id, or a reserved one.
    I8,
    /// No next hop of the prefix's family.
    I9,
    /// Interval 0.
    I10,
    /// Rxcost 0.
    I11,
    /// A wildcard with more than it allows.
    I12,
    /// Hop count 0.
    I13,
}

/// The codes with their names and sentences, in the order of the codes. A sentence has what the
/// code means and, if something can be done, what to do.
static CODES: [(ReportCode, &str, &str); 33] = [
    (ReportCode::S1, "S1", NO_INTERFACE),
    (
        ReportCode::S2,
        "S2",
        "the source is neither in fe80::/10 nor in the interface's IPv4 network; check the addresses and the network's length",
    ),
    (
        ReportCode::S3,
        "S3",
        "the source is an own address: the speaker heard itself",
    ),
    (
        ReportCode::P1,
        "P1",
        "the datagram has fewer than 4 octets; look for truncation in the capture",
    ),
    (
        ReportCode::P2,
        "P2",
        "the first octet is not 42, so this is not Babel; check the port and the capture filter (UDP port 6696)",
    ),
    (
        ReportCode::P3,
        "P3",
        "the second octet is not 2: the sender speaks another version; upgrade it",
    ),
    (
        ReportCode::P4,
        "P4",
        "the body length in the header is greater than the octets that came; look for a small snap length of the capture",
    ),
    (
        ReportCode::P5,
        "P5",
        "the TLV at the offset after the code runs past the end of the body; the sender is faulty, or the datagram was damaged",
    ),
    (
        ReportCode::P6,
        "P6",
        "out of memory; give the process more of it",
    ),
    (ReportCode::E1, "E1", NO_INTERFACE),
    (
        ReportCode::E2,
        "E2",
        "the cost is not in 1 to 65534; the interface keeps its cost",
    ),
    (ReportCode::V1, "V1", "the message was taken"),
    (
        ReportCode::V2,
        "V2",
        "the update is not feasible: its seqno and metric are not better than the feasibility distance after the code (RFC 8966, section 3.5.1)",
    ),
    (
        ReportCode::V3,
        "V3",
        "the update has the speaker's own router-id; look whether two routers share it",
    ),
    (
        ReportCode::V4,
        "V4",
        "the sender is no neighbour: no Hello came from it; look whether its Hellos arrive",
    ),
    (
        ReportCode::V5,
        "V5",
        "the table is full: it has room for 64 neighbours and 256 routes; the network is larger",
    ),
    (
        ReportCode::V6,
        "V6",
        "the IHU is for another address, as is usual on a shared link",
    ),
    (
        ReportCode::V7,
        "V7",
        "the retraction is of a route that the speaker does not have",
    ),
    (
        ReportCode::V8,
        "V8",
        "a request for this seqno or a later one is pending already",
    ),
    (
        ReportCode::V9,
        "V9",
        "the Seqno Request is not forwarded: there is no route, no hop is left, or there is nobody to ask",
    ),
    (ReportCode::I1, "I1", "the TLV is padding"),
    (
        ReportCode::I2,
        "I2",
        "the type is above 10: an extension that is not known here",
    ),
    (
        ReportCode::I3,
        "I3",
        "the fixed fields, the address or the prefix are not whole, or the prefix length is too large; the sender is faulty",
    ),
    (
        ReportCode::I4,
        "I4",
        "a sub-TLV runs past its TLV; the sender is faulty",
    ),
    (
        ReportCode::I5,
        "I5",
        "a sub-TLV of the type after the code must be understood and is not known here; turn the extension off at the sender",
    ),
    (
        ReportCode::I6,
        "I6",
        "the address encoding is not one that this TLV takes: an extension, or a faulty sender",
    ),
    (
        ReportCode::I7,
        "I7",
        "the Update omits octets that no earlier Update of the datagram set; look whether the datagram's start is missing",
    ),
    (
        ReportCode::I8,
        "I8",
        "the router-id is missing or reserved; the sender is faulty, or its Router-Id TLV was ignored",
    ),
    (
        ReportCode::I9,
        "I9",
        "the Update has no next hop of its family; an IPv4 route over IPv6 needs a Next Hop TLV, and show needs --source",
    ),
    (
        ReportCode::I10,
        "I10",
        "the interval is 0; the sender is faulty",
    ),
    (
        ReportCode::I11,
        "I11",
        "the rxcost is 0; the sender is faulty: costs are at least 1",
    ),
    (
        ReportCode::I12,
        "I12",
        "the wildcard encoding comes with more than it can carry; the sender is faulty",
    ),
    (
        ReportCode::I13,
        "I13",
        "the hop count is 0; the sender is faulty",
    ),
];

/// What S1 and E1 mean.
const NO_INTERFACE: &str =
    "the configuration has no interface of this number; interfaces count from 0";

impl ReportCode {
    /// The code of this name, if there is one.
    pub fn from_name(name: &[u8]) -> Option<ReportCode> {
        for (code, text, _sentence) in CODES.iter() {
            if text.as_bytes() == name {
                return Some(*code);
            }
        }
        None
    }
}

/// The code and its sentence.
impl fmt::Display for ReportCode {
    fn fmt<W: fmt::Write>(&self, f: &mut fmt::Formatter<W>) -> fmt::Result {
        let (_code, name, sentence) = &CODES[*self as usize];
        write!(f, "{name}: {sentence}")
    }
}

impl From<Reason> for ReportCode {
    fn from(reason: Reason) -> ReportCode {
        match reason {
            Reason::Padding => ReportCode::I1,
            Reason::UnknownType => ReportCode::I2,
            Reason::Unreadable => ReportCode::I3,
            Reason::TailOverrun => ReportCode::I4,
            Reason::MandatorySubTlv(_) => ReportCode::I5,
            Reason::UnknownEncoding => ReportCode::I6,
            Reason::NoDefaultPrefix => ReportCode::I7,
            Reason::NoRouterId => ReportCode::I8,
            Reason::NoNextHop => ReportCode::I9,
            Reason::ZeroInterval => ReportCode::I10,
            Reason::ZeroRxcost => ReportCode::I11,
            Reason::Wildcard => ReportCode::I12,
            Reason::NoHops => ReportCode::I13,
        }
    }
}

impl From<Refusal> for ReportCode {
    fn from(refusal: Refusal) -> ReportCode {
        match refusal {
            Refusal::Short => ReportCode::P1,
            Refusal::Magic => ReportCode::P2,
            Refusal::Version => ReportCode::P3,
            Refusal::BodyLength => ReportCode::P4,
            Refusal::Tlv(_) => ReportCode::P5,
            Refusal::Memory => ReportCode::P6,
        }
    }
}
