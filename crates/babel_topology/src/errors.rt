//! Why a file of a topology is refused.

ghost use Rattle.std.specs.Prelude.{◌≡◌, ◌++◌, ◌∷◌, ℕ, Some, None};
ghost use Rattle.std.specs.Fmt.{decimal};
ghost use Rattle.babel_topology.specs.Codes.{fault_text};

use std::alloc::{AllocError, AllocFailed};
use std::fmt;
use thiserror::Error;

/// Why a file of a topology is refused. Numbers count from 0 in the order of the file. The text is
/// a phrase; [`TopologyFault::code`] has the code that the program prints.
#[derive(Clone, Copy, Debug, Drop, Error)]
pub enum TopologyFault {
    /// T1: the octets are no TOML document.
    #[error("the file isn't TOML")]
    NotToml,
    /// T2: a key is unknown, missing or of the wrong kind, or a number is out of range.
    #[error("a key is unknown, missing or of the wrong kind, or a number is out of range")]
    Form,
    /// T3: a text can't be read.
    #[error("the text of a time, a prefix or a router-id can't be read")]
    Text,
    /// T4: an allocation failed.
    #[error("out of memory")]
    Memory,
    /// T5: the file can't be read, or has more than 1,048,576 octets.
    #[error("the file can't be read, or has more than 1048576 octets")]
    Unreadable,
    /// T6: there is no node, or there are more than 4,096.
    #[error("a topology has 1 to 4096 nodes")]
    NodeCount,
    /// T7: the name of this node is empty, or has a blank or a dash.
    #[error("the name of node {0} is empty, or has a blank or a dash")]
    BadName(usize),
    /// T8: an earlier node has the name of this node.
    #[error("node {0} has the name of an earlier node")]
    RepeatedName(usize),
    /// T9: the router-id of this node is reserved, or is that of an earlier node.
    #[error("the router-id of node {0} is reserved, or an earlier node has it")]
    BadRouterId(usize),
    /// T10: this link names a node that isn't there.
    #[error("link {0} names a node that isn't there")]
    UnknownEnd(usize),
    /// T11: both ends of this link are one node.
    #[error("both ends of link {0} are one node")]
    SameEnds(usize),
    /// T12: an earlier link joins the nodes of this link.
    #[error("link {0} joins two nodes that an earlier link joins")]
    RepeatedLink(usize),
    /// T13: a node of this link has more than 8 links, and 8 interfaces with other costs.
    #[error("a node of link {0} has no interface left for its cost")]
    TooManyCosts(usize),
    /// T14: the text of this step can't be read, or names a node or link that isn't there.
    #[error("the text of step {0} can't be read, or names a node or link that isn't there")]
    BadStep(usize),
    /// T15: this step is earlier than the one before it.
    #[error("step {0} is earlier than the one before it")]
    EarlyStep(usize),
    /// T16: this step is later than the end.
    #[error("step {0} is later than the end")]
    LateStep(usize),
    /// T17: this step changes the cost of an interface that other links share.
    #[error("step {0} changes the cost of an interface that other links share")]
    SharedCost(usize),
    /// T18: the text of this expectation can't be read, or names a node that isn't there.
    #[error("the text of expectation {0} can't be read, or names a node that isn't there")]
    BadExpectation(usize),
    /// T19: this expectation is later than the end.
    #[error("expectation {0} is later than the end")]
    LateExpectation(usize),
}

impl TopologyFault {
    /// The code that the program prints, for instance `T14 0`.
    pub fn code(self) -> TopologyFaultCode
        ensures { result.fault ≡ self }
    {
        TopologyFaultCode { fault: self }
    }

    /// The code, and the number that comes after it, if the fault has one.
    fn code_parts(self) -> (&'static str, Option<usize>)
        ensures plain { result.1 ≡ None → result.0.now ≡ fault_text self }
        ensures numbered { (n : ℕ) → result.1 ≡ Some n
            → result.0.now ++ (32 ∷ decimal n) ≡ fault_text self }
    {
        match self {
            TopologyFault::NotToml => ("T1", None),
            TopologyFault::Form => ("T2", None),
            TopologyFault::Text => ("T3", None),
            TopologyFault::Memory => ("T4", None),
            TopologyFault::Unreadable => ("T5", None),
            TopologyFault::NodeCount => ("T6", None),
            TopologyFault::BadName(node) => ("T7", Some(node)),
            TopologyFault::RepeatedName(node) => ("T8", Some(node)),
            TopologyFault::BadRouterId(node) => ("T9", Some(node)),
            TopologyFault::UnknownEnd(link) => ("T10", Some(link)),
            TopologyFault::SameEnds(link) => ("T11", Some(link)),
            TopologyFault::RepeatedLink(link) => ("T12", Some(link)),
            TopologyFault::TooManyCosts(link) => ("T13", Some(link)),
            TopologyFault::BadStep(step) => ("T14", Some(step)),
            TopologyFault::EarlyStep(step) => ("T15", Some(step)),
            TopologyFault::LateStep(step) => ("T16", Some(step)),
            TopologyFault::SharedCost(step) => ("T17", Some(step)),
            TopologyFault::BadExpectation(expectation) => ("T18", Some(expectation)),
            TopologyFault::LateExpectation(expectation) => ("T19", Some(expectation)),
        }
    }
}

/// The code of a fault as text: `T1` to `T19`, with the number of the node, link, step or
/// expectation after it.
#[derive(Clone, Copy)]
pub struct TopologyFaultCode {
    /// The fault.
    pub fault: TopologyFault,
}

/// The code, with the number after it.
impl fmt::Display for TopologyFaultCode {
    ghost use Rattle.std.specs.Prelude.{Some};
    ghost use Rattle.babel_topology.specs.Codes.{fault_text};

    ghost output = { λ code. Some (fault_text code.fault) };

    fn fmt<W: fmt::Write>(&self, f: &mut fmt::Formatter<W>) -> fmt::Result {
        match self.fault.code_parts() {
            (code, Some(number)) => write!(f, "{code} {number}"),
            (code, None) => f.write_str(code),
        }
    }
}

impl From<AllocError> for TopologyFault {
    ghost use Rattle.babel_topology.specs.declared.errors.TopologyFault.TheVariants.{Memory};

    ghost from_gives = { λ _ fault. fault ≡ Memory };

    fn from(_error: AllocError) -> TopologyFault {
        TopologyFault::Memory
    }
}

impl<T: Drop> From<AllocFailed<T>> for TopologyFault {
    ghost use Rattle.babel_topology.specs.declared.errors.TopologyFault.TheVariants.{Memory};

    ghost from_gives = { λ _ fault. fault ≡ Memory };

    fn from(_error: AllocFailed<T>) -> TopologyFault {
        TopologyFault::Memory
    }
}
