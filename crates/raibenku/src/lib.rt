//! Raibenku: a speaker of the Babel routing protocol (RFC 8966) for programs that embed one.
//!
//! This crate passes on what such a program needs, so that it has one dependency:
//!
//! - `Config` and `Interface` are the configuration, `read_config` reads it from TOML;
//! - `Speaker` is the speaker: datagrams and moments in, datagrams and selected routes out;
//! - `drive` gives it its turns over a `Wire`, and `drive_durable` keeps its snapshot as well;
//!   `take_in` takes in a datagram between turns, `request_seqnos` asks for better routes that are
//!   not to be had without a greater seqno, and `lose_links` loses those of an interface that is
//!   down;
//! - `UdpWire` is a wire over UDP sockets;
//! - `Addr`, `Prefix`, `Metric` and the others are the values that the calls take and return.
//!
//! Of its own it has `UdpWire`: `links` is what the sockets need of a configuration, `sockets` the
//! wire over them and IPv4, and `errors` why a speaker can't speak over it.
#![tactic(auto)]

mod errors;
mod links;
mod sockets;

pub use babel_choice::{Entry, Selection};
pub use babel_config::{FileFault, read_config};
pub use babel_link::{History, Link, Marks, Timer};
pub use babel_speaker::{Neighbour, Speaker};
pub use babel_state::{
    Config, ConfigFault, Interface, InterfaceEntry, NotAnnounced, Note, PendingRequest, RecvFault,
    Resend, RestoreFault, Selected, SetCostFault, Target, TooManyPrefixes, Verdict,
};
pub use babel_text::{parse_network, parse_prefix, parse_router_id};
pub use babel_tlv::DATAGRAM_LEN;
pub use babel_value::{
    Addr, Distance, Family, Memory, Metric, Peer, Prefix, RouterId, Seqno, Source,
};
pub use babel_wire::{
    Arrival, DurableDriver, DurableReport, DurableWire, Keeper, NoReceipts, Observer, Receipts,
    Report, StoreFault, Wire, WireFault, drive, drive_durable, lose_links, request_seqnos, take_in,
};
pub use errors::{SpeakCode, SpeakFault};
pub use links::Links;
pub use sockets::UdpWire;
