//! What nodes hear from routers of others: the datagram, and why it is refused.

ghost use Rattle.std.specs.Prelude.{◌≡◌};

use babel_value::Addr;
use std::marker::Model;
use thiserror::Error;

/// A datagram that a node hears over one of its interfaces from a router that isn't ours: the
/// octets of its body and header, the address that it came from, and the moment in centiseconds.
#[derive(Debug, Drop)]
pub struct Heard<'a> {
    /// The node that hears it.
    pub node: usize,
    /// The interface, by its number.
    pub iface: u8,
    /// The source address.
    pub source: Addr,
    /// The octets.
    pub octets: &'a [u8],
    /// The moment.
    pub now: u64,
}

impl<'a> Model for Heard<'a> {
    ghost use Rattle.babel_machine.specs.ForeignWorlds.{HearEvent};

    ghost Value = { HearEvent };

    ghost view = { λ h. record { node = h.node; iface = h.iface; source = h.source; octets = h.octets.now; now = h.now } };
}

/// Why a network doesn't hear a datagram, in the order of test. A refused datagram changes nothing.
#[derive(Clone, Copy, Debug, PartialEq, Eq, Drop, Error)]
pub enum HearFault {
    /// N8: the source address is a node's.
    #[error("the source address is a node's")]
    OwnAddress,
    /// N1: there is no such node.
    #[error("there is no such node")]
    NoNode,
    /// N3: the node has no such interface.
    #[error("the node has no such interface")]
    NoInterface,
    /// N6: an allocation failed.
    #[error("out of memory")]
    Memory,
}

impl HearFault {
    ghost use Rattle.babel_net.specs.HearFaults.{hear_code};

    /// The code: `N8`, `N1`, `N3` or `N6`.
    pub fn code(self) -> &'static str
        ensures { result.now ≡ hear_code self }
    {
        match self {
            HearFault::OwnAddress => "N8",
            HearFault::NoNode => "N1",
            HearFault::NoInterface => "N3",
            HearFault::Memory => "N6",
        }
    }
}

/// Whether the node's speaker read a datagram that it heard.
#[derive(Clone, Copy)]
pub enum Hearing {
    /// It was read.
    Received,
    /// It was refused: for its source address, or since its octets can't be read.
    Refused,
}
