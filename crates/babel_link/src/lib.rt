//! The links of a Babel speaker (RFC 8966): which neighbours it hears, and what their links cost.
//!
//! A Hello makes a neighbour. The neighbour has a history of the multicast and one of the unicast
//! Hellos that came or were missed, and the cost that its last IHU advertised. Moments are
//! centiseconds, given by the caller in any order. Nothing here knows of datagrams, routes or
//! sockets, and only `Neighbours::new` takes memory.
#![tactic(auto)]

mod changes;
mod errors;
pub mod laws;
mod links;
mod marks;
mod neighbours;
mod peers;
mod words;

pub use babel_value::Memory;
pub use changes::{CostChanges, HelloEffect, LinkCost};
pub use errors::Full;
pub use links::{History, Link, Timer};
pub use marks::{Heard, Marks};
pub use neighbours::{MAX_NEIGHBOURS, Neighbours};
pub use peers::Peers;
