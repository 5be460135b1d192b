//! Why calls of a speaker are refused. Each error prints a phrase, and `code` returns the code that
//! the program prints.

ghost use Rattle.std.specs.Prelude.{◌≡◌, codes};
ghost use Rattle.babel_state.specs.Codes.{config_code, restore_code, set_cost_code, recv_code};

use babel_message::Refusal;
use thiserror::Error;

/// Why no speaker can be made of a configuration, in the order in which the causes are tested.
#[derive(Clone, Copy, Debug, PartialEq, Eq, Error)]
pub enum ConfigFault {
    /// C1: the router-id is reserved (RFC 8966, section 4.1.3).
    #[error("the router-id is reserved")]
    ReservedRouterId,
    /// C2: there is no interface, or there are more than 8.
    #[error("there is no interface, or more than 8")]
    InterfaceCount,
    /// C3: an interface's nominal cost isn't in 1 to 65534.
    #[error("a cost isn't in 1 to 65534")]
    NominalCost,
    /// C4: an interface's Hello interval isn't in 1 to 4000 centiseconds.
    #[error("a Hello interval isn't in 1 to 4000 centiseconds")]
    HelloInterval,
    /// C5: there are more than 64 prefixes, or one is listed twice.
    #[error("there are more than 64 prefixes, or one is listed twice")]
    Prefixes,
    /// C6: an interface has no address of its transport's family, an IPv6 address outside
    /// fe80::/10, an IPv4 length above 32, more than 16 peers, or a peer of another family than its
    /// transport.
    #[error("the addresses or peers of an interface can't be used")]
    InterfaceAddresses,
    /// C7: an allocation failed.
    #[error("out of memory")]
    Memory,
}

impl ConfigFault {
    /// The code, from `C1` to `C7`.
    pub fn code(self) -> &'static str
        ensures { result.now ≡ config_code self }
    {
        match self {
            ConfigFault::ReservedRouterId => "C1",
            ConfigFault::InterfaceCount => "C2",
            ConfigFault::NominalCost => "C3",
            ConfigFault::HelloInterval => "C4",
            ConfigFault::Prefixes => "C5",
            ConfigFault::InterfaceAddresses => "C6",
            ConfigFault::Memory => "C7",
        }
    }
}

/// Why no speaker is restored. C1 to C6 are tested first, then K1 to K7 in this order, and C7 comes
/// last. Records of sources count from 0, and for each record K6 comes before K7.
#[derive(Clone, Copy, Debug, PartialEq, Eq, Error)]
pub enum RestoreFault {
    /// C1 to C7: no speaker can be made of the configuration.
    #[error("{0}")]
    Config(#[from] ConfigFault),
    /// K1: there are fewer than 24 octets.
    #[error("the snapshot is shorter than its head")]
    TooShort,
    /// K2: the first 4 octets are others.
    #[error("the octets are no snapshot")]
    Beginning,
    /// K3: the router-id isn't the configuration's.
    #[error("the snapshot is of another router-id")]
    RouterId,
    /// K4: there are more than 512 records.
    #[error("the snapshot has more than 512 sources")]
    TooManyRecords,
    /// K5: the length isn't 24 octets and 30 for each record.
    #[error("the snapshot's length isn't that of its records")]
    Length,
    /// K6: the record with this index encodes no source, or its metric is infinite.
    #[error("record {0} encodes no source with a finite metric")]
    Record(usize),
    /// K7: the record with this index isn't greater than the one before it.
    #[error("record {0} isn't in order")]
    Order(usize),
}

impl RestoreFault {
    /// The code: `K1` to `K7`, or that of the configuration's fault, `C1` to `C7`.
    pub fn code(self) -> &'static str
        ensures { result.now ≡ restore_code self }
    {
        match self {
            RestoreFault::Config(fault) => fault.code(),
            RestoreFault::TooShort => "K1",
            RestoreFault::Beginning => "K2",
            RestoreFault::RouterId => "K3",
            RestoreFault::TooManyRecords => "K4",
            RestoreFault::Length => "K5",
            RestoreFault::Record(_) => "K6",
            RestoreFault::Order(_) => "K7",
        }
    }
}

/// Why a whole datagram isn't taken, in the order in which the causes are tested.
#[derive(Clone, Copy, Debug, PartialEq, Eq, Error)]
pub enum RecvFault {
    /// S1: there is no such interface.
    #[error("there is no such interface")]
    NoInterface,
    /// S2: the source address is neither in fe80::/10 nor in the interface's IPv4 network.
    #[error("the source address isn't on the interface's link")]
    ForeignSource,
    /// S3: the source address is an own address of some interface.
    #[error("the source address is an own address")]
    OwnSource,
    /// P1 to P6: the datagram can't be read.
    #[error("{0}")]
    Refused(#[from] Refusal),
}

impl RecvFault {
    /// The code, from `S1` to `S3`, or that of the refusal, from `P1` to `P6`.
    pub fn code(self) -> &'static str
        ensures { result.now ≡ recv_code self }
    {
        match self {
            RecvFault::NoInterface => "S1",
            RecvFault::ForeignSource => "S2",
            RecvFault::OwnSource => "S3",
            RecvFault::Refused(Refusal::Short) => "P1",
            RecvFault::Refused(Refusal::Magic) => "P2",
            RecvFault::Refused(Refusal::Version) => "P3",
            RecvFault::Refused(Refusal::BodyLength) => "P4",
            RecvFault::Refused(Refusal::Tlv(_)) => "P5",
            RecvFault::Refused(Refusal::Memory) => "P6",
        }
    }
}

/// Why an interface's nominal cost isn't set, in the order in which the causes are tested.
#[derive(Clone, Copy, Debug, PartialEq, Eq, Error)]
pub enum SetCostFault {
    /// E1: there is no such interface.
    #[error("there is no such interface")]
    NoInterface,
    /// E2: the cost isn't in 1 to 65534.
    #[error("the cost isn't in 1 to 65534")]
    CostOutOfRange,
}

impl SetCostFault {
    /// The code, `E1` or `E2`.
    pub fn code(self) -> &'static str
        ensures { result.now ≡ set_cost_code self }
    {
        match self {
            SetCostFault::NoInterface => "E1",
            SetCostFault::CostOutOfRange => "E2",
        }
    }
}

/// E3: the prefix isn't announced, since 64 others are.
#[derive(Clone, Copy, Debug, PartialEq, Eq, Error)]
#[error("64 other prefixes are announced")]
pub struct TooManyPrefixes;

impl TooManyPrefixes {
    /// The code, `E3`.
    pub fn code(self) -> &'static str
        ensures { result.now ≡ codes "E3" }
    {
        "E3"
    }
}

/// E4: the prefix can't be withdrawn, since it isn't announced.
#[derive(Clone, Copy, Debug, PartialEq, Eq, Error)]
#[error("the prefix isn't announced")]
pub struct NotAnnounced;

impl NotAnnounced {
    /// The code, `E4`.
    pub fn code(self) -> &'static str
        ensures { result.now ≡ codes "E4" }
    {
        "E4"
    }
}
