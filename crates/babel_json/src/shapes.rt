//! What the lines of the reports have: fields in order, each with the word before it and the key of
//! its member.

/// What the value of a field is.
#[derive(Clone, Copy)]
pub(crate) enum Kind {
    /// A text.
    Text,
    /// A number.
    Number,
    /// A number, and the key after it.
    Count,
    /// A number, or no value if the next word is none.
    OptionalNumber,
    /// An address, or no value for any receiver.
    Receiver,
}

/// What comes before a value.
#[derive(Clone, Copy)]
pub(crate) enum Lead {
    /// Nothing.
    Nothing,
    /// This word.
    Word(&'static str),
    /// This word. If it isn't there, the field is missing.
    Optional(&'static str),
}

/// A field of a line: the key of its member, what comes before its value, and what the value is.
#[derive(Clone, Copy)]
pub(crate) struct Field(pub(crate) &'static str, pub(crate) Lead, pub(crate) Kind);

const ADVERTISED: Field = Field("advertised", Lead::Word("advertised"), Kind::Number);

const CODE: Field = Field("code", Lead::Nothing, Kind::Text);

const COST: Field = Field("cost", Lead::Word("cost"), Kind::Number);

const DATAGRAM: Field = Field("datagram", Lead::Optional("datagram"), Kind::Number);

const DATAGRAMS: Field = Field("datagrams", Lead::Nothing, Kind::Count);

const DID: Field = Field("did", Lead::Nothing, Kind::Text);

const EVENTS: Field = Field("events", Lead::Nothing, Kind::Count);

const FROM: Field = Field("from", Lead::Optional("from"), Kind::Number);

const HOPS: Field = Field("hops", Lead::Word("hops"), Kind::Number);

const IFACE: Field = Field("iface", Lead::Word("via"), Kind::Number);

const INTERVAL: Field = Field("interval", Lead::Word("interval"), Kind::Number);

const KIND: Field = Field("kind", Lead::Nothing, Kind::Text);

const MESSAGES: Field = Field("messages", Lead::Nothing, Kind::Number);

const METRIC: Field = Field("metric", Lead::Word("metric"), Kind::Number);

const NEIGHBOUR: Field = Field("neighbour", Lead::Nothing, Kind::Text);

const NEXT: Field = Field("next", Lead::Nothing, Kind::Number);

const NEXT_HOP: Field = Field("next_hop", Lead::Word("next-hop"), Kind::Text);

const NEXT_NODE: Field = Field("next", Lead::Optional("node"), Kind::Number);

const NODE: Field = Field("node", Lead::Nothing, Kind::Number);

const OCTETS: Field = Field("octets", Lead::Optional("octets"), Kind::Number);

const OFFSET: Field = Field("offset", Lead::Nothing, Kind::OptionalNumber);

const OPAQUE: Field = Field("opaque", Lead::Word("opaque"), Kind::Number);

const PREFIX: Field = Field("prefix", Lead::Nothing, Kind::Text);

const RAISES: Field = Field("raises", Lead::Word("raises"), Kind::Number);

const REASON: Field = Field("reason", Lead::Nothing, Kind::Text);

const ROUTER: Field = Field("router", Lead::Word("router"), Kind::Text);

const RXCOST: Field = Field("rxcost", Lead::Word("rxcost"), Kind::Number);

const SENT_FROM: Field = Field("iface", Lead::Nothing, Kind::Number);

const SENT_OVER: Field = Field("iface", Lead::Optional("iface"), Kind::Number);

const SENT_TO: Field = Field("to", Lead::Nothing, Kind::Receiver);

const SEQNO: Field = Field("seqno", Lead::Word("seqno"), Kind::Number);

const SOURCES: Field = Field("sources", Lead::Nothing, Kind::Count);

const SOURCE_METRIC: Field = Field("source_metric", Lead::Nothing, Kind::OptionalNumber);

const SOURCE_SEQNO: Field = Field("source_seqno", Lead::Nothing, Kind::OptionalNumber);

const SUBTLV: Field = Field("subtlv", Lead::Nothing, Kind::OptionalNumber);

const TARGET: Field = Field("to", Lead::Optional("to"), Kind::Receiver);

const TO: Field = Field("to", Lead::Word("to"), Kind::Receiver);

const VERDICT: Field = Field("verdict", Lead::Nothing, Kind::Text);

/// A TLV of a datagram, as `show` and `replay` print it.
#[derive(Clone, Copy)]
pub(crate) struct Tlv {
    /// The word that it begins with.
    pub(crate) name: &'static str,
    /// The type of its object.
    pub(crate) object: &'static str,
    /// Whether it is a message, whose name is a member.
    pub(crate) is_message: bool,
    /// The fields after the name.
    pub(crate) fields: &'static [Field],
}

static TLVS: [Tlv; 12] = [
    Tlv {
        name: "ack-request",
        object: "message",
        is_message: true,
        fields: &[OPAQUE, INTERVAL],
    },
    Tlv {
        name: "ack",
        object: "message",
        is_message: true,
        fields: &[OPAQUE],
    },
    Tlv {
        name: "hello",
        object: "message",
        is_message: true,
        fields: &[KIND, SEQNO, INTERVAL],
    },
    Tlv {
        name: "ihu",
        object: "message",
        is_message: true,
        fields: &[TO, RXCOST, INTERVAL],
    },
    Tlv {
        name: "update",
        object: "message",
        is_message: true,
        fields: &[PREFIX, ROUTER, NEXT_HOP, SEQNO, METRIC, INTERVAL],
    },
    Tlv {
        name: "retract",
        object: "message",
        is_message: true,
        fields: &[PREFIX, INTERVAL],
    },
    Tlv {
        name: "retract-all",
        object: "message",
        is_message: true,
        fields: &[INTERVAL],
    },
    Tlv {
        name: "route-request",
        object: "message",
        is_message: true,
        fields: &[PREFIX],
    },
    Tlv {
        name: "dump-request",
        object: "message",
        is_message: true,
        fields: &[],
    },
    Tlv {
        name: "seqno-request",
        object: "message",
        is_message: true,
        fields: &[PREFIX, ROUTER, SEQNO, HOPS],
    },
    Tlv {
        name: "state",
        object: "state",
        is_message: false,
        fields: &[],
    },
    Tlv {
        name: "ignored",
        object: "ignored",
        is_message: false,
        fields: &[REASON, SUBTLV],
    },
];

impl Tlv {
    /// The TLV that begins with this word, if there is one.
    pub(crate) fn from_name(name: &str) -> Option<Tlv> {
        for tlv in TLVS.iter() {
            if tlv.name == name {
                return Some(*tlv);
            }
        }
        None
    }
}

/// What became of a message.
pub(crate) static JUDGED: [Field; 3] = [VERDICT, SOURCE_SEQNO, SOURCE_METRIC];

/// What is refused: the code, and the offset after `P5`.
pub(crate) static REFUSED: [Field; 2] = [CODE, OFFSET];

/// An event that is refused.
pub(crate) static REFUSED_EVENT: [Field; 1] = [CODE];

/// A datagram that is sent.
pub(crate) static SENT: [Field; 3] = [SENT_FROM, SENT_TO, MESSAGES];

/// A selected route after its prefix.
pub(crate) static SELECTED: [Field; 5] = [IFACE, NEIGHBOUR, METRIC, ROUTER, SEQNO];

/// A route that is explained, up to its source.
pub(crate) static EXPLAINED: [Field; 8] = [
    PREFIX, IFACE, NEIGHBOUR, ROUTER, SEQNO, ADVERTISED, COST, METRIC,
];

/// The source of a route that is explained.
pub(crate) static SOURCE: [Field; 2] = [SOURCE_SEQNO, SOURCE_METRIC];

/// What was restored of a snapshot.
pub(crate) static RESTORED: [Field; 3] = [SOURCES, SEQNO, RAISES];

/// The event that something was done by, and its node.
pub(crate) static DONE: [Field; 2] = [DID, NODE];

/// The datagram of an event.
pub(crate) static EVENT_DATAGRAM: [Field; 5] = [DATAGRAM, OCTETS, FROM, SENT_OVER, TARGET];

/// A next hop after its prefix and the arrow.
pub(crate) static HOP: [Field; 2] = [NEXT, ROUTER];

/// A next hop over a router that is no node, after its prefix and the arrow.
pub(crate) static FOREIGN_HOP: [Field; 4] = [NEIGHBOUR, ROUTER, NEXT_HOP, NEXT_NODE];

/// The end of a scenario.
pub(crate) static ENDED: [Field; 2] = [EVENTS, DATAGRAMS];
