//! Why calls of this crate are refused.

ghost use Rattle.std.specs.Prelude.{◌≡◌};
ghost use Rattle.babel_machine.specs.Codes.{net_code, step_code};

use babel_state::ConfigFault;
use std::alloc::AllocError;
use thiserror::Error;

/// Why the machine refuses a call, in the order of test. A refused call changes nothing.
#[derive(Clone, Copy, Debug, PartialEq, Eq, Drop, Error)]
pub enum MachineFault {
    /// A1: there is no such node or source.
    #[error("the number of a node or source is out of range")]
    OutOfRange,
    /// A2: the source's raise count has its greatest value.
    #[error("the raise count has its greatest value")]
    CountAtGreatest,
    /// A3: the owner names a metric other than 0. Or another node has no pick, or names a metric
    /// that isn't greater than its pick's, or one above 65534.
    #[error("the node may not send this pair")]
    MayNotSend,
    /// A4: the named node never sent the pair, or it isn't better than everything that the picker
    /// sent.
    #[error("the node may not pick this pair")]
    MayNotPick,
    /// A5: an allocation failed.
    #[error("out of memory")]
    Memory,
}

impl MachineFault {
    ghost use Rattle.babel_machine.specs.MachineRefusals.{machine_code};

    /// The code, from `A1` to `A5`.
    pub fn code(self) -> &'static str
        ensures { result.now ≡ machine_code self }
    {
        match self {
            MachineFault::OutOfRange => "A1",
            MachineFault::CountAtGreatest => "A2",
            MachineFault::MayNotSend => "A3",
            MachineFault::MayNotPick => "A4",
            MachineFault::Memory => "A5",
        }
    }
}

impl From<AllocError> for MachineFault {
    ghost use Rattle.babel_machine.specs.declared.errors.MachineFault.TheVariants.{Memory};

    ghost from_gives = { λ _ fault. fault ≡ Memory };

    fn from(_error: AllocError) -> Self {
        MachineFault::Memory
    }
}

/// Why no network can be made of a list of configurations, in the order of test.
#[derive(Clone, Copy, Debug, PartialEq, Eq, Drop, Error)]
pub enum NetFault {
    /// M5: there are more than 64 nodes.
    #[error("there are more than 64 nodes")]
    TooManyNodes,
    /// M7: no speaker can be made of this node's configuration, which is the first such one.
    #[error("node {node}: {fault}")]
    BadConfig { node: usize, fault: ConfigFault },
    /// M4: a node collects sources (RFC 8966, section 3.2.5).
    #[error("a node collects sources")]
    CollectsSources,
    /// M1: two interfaces, of one node or of two, have the same address.
    #[error("an address is that of two interfaces")]
    AddressTwice,
    /// M2: two nodes have the same router-id.
    #[error("a router-id is that of two nodes")]
    RouterIdTwice,
    /// M6: an allocation of the network's own failed.
    #[error("out of memory")]
    Memory,
}

impl NetFault {
    /// The code, from `M1` to `M7`. There is no `M3`.
    pub fn code(self) -> &'static str
        ensures { result.now ≡ net_code self }
    {
        match self {
            NetFault::TooManyNodes => "M5",
            NetFault::BadConfig { .. } => "M7",
            NetFault::CollectsSources => "M4",
            NetFault::AddressTwice => "M1",
            NetFault::RouterIdTwice => "M2",
            NetFault::Memory => "M6",
        }
    }
}

/// Why a network refuses an event, in the order of test. A refused event changes nothing.
#[derive(Clone, Copy, Debug, PartialEq, Eq, Drop, Error)]
pub enum StepFault {
    /// N1: there is no such node.
    #[error("there is no such node")]
    NoNode,
    /// N2: no datagram of this number was sent.
    #[error("no datagram of this number was sent")]
    NoDatagram,
    /// N3: the node has no such interface.
    #[error("the node has no such interface")]
    NoInterface,
    /// N4: the cost isn't in 1 to 65534.
    #[error("the cost isn't in 1 to 65534")]
    CostOutOfRange,
    /// N5: the node's configuration doesn't list the prefix.
    #[error("the node's configuration doesn't list the prefix")]
    NotListed,
    /// N7: the node doesn't announce the prefix now.
    #[error("the node doesn't announce the prefix now")]
    NotAnnounced,
    /// N6: an allocation failed.
    #[error("out of memory")]
    Memory,
}

impl StepFault {
    /// The code, from `N1` to `N7`.
    pub fn code(self) -> &'static str
        ensures { result.now ≡ step_code self }
    {
        match self {
            StepFault::NoNode => "N1",
            StepFault::NoDatagram => "N2",
            StepFault::NoInterface => "N3",
            StepFault::CostOutOfRange => "N4",
            StepFault::NotListed => "N5",
            StepFault::NotAnnounced => "N7",
            StepFault::Memory => "N6",
        }
    }
}
