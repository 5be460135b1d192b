//! A speaker of the Babel routing protocol (RFC 8966) over a wire: [`drive`] receives, ticks and
//! sends in turns. A wire is anything that has a clock and passes datagrams on, as a set of sockets
//! does.
//!
//! A speaker that may be killed at any moment is driven by [`drive_durable`], which keeps its
//! snapshot before the datagrams of a turn are sent, [`take_in`], which takes in datagrams between
//! turns, [`request_seqnos`], [`lose_links`], and the speaker's own `group_items`. What is on disk
//! when the process is killed is the subject of [`laws`].
//!
//! - `wire`: what a speaker is driven over. `driving`: turns over a wire.
//! - `durable`: turns over a wire and a store. `laws` and `examples` are about these.
#![tactic(auto)]

mod driving;
mod durable;
mod errors;
pub mod examples;
pub mod laws;
mod receipts;
mod report;
mod wire;

pub use driving::drive;
pub use durable::{
    DurableDriver, DurableReport, DurableWire, Keeper, Observer, StoreFault, drive_durable,
    lose_links, request_seqnos, take_in,
};
pub use errors::WireFault;
pub use receipts::{NoReceipts, Receipts};
pub use report::Report;
pub use wire::{Arrival, Wire};
