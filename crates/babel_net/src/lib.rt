//! Networks of Babel speakers (RFC 8966), from octets to octets: after any events, the selected
//! routes of their nodes form no loop.
#![tactic(auto)]

mod calls;
mod hearing;
pub mod laws;
mod network;
mod node_speakers;
mod nodes;
mod sent;

pub use babel_machine::machine::Machine;
pub use babel_machine::{Event, MachineFault, NetFault, StepFault};
pub use babel_owners::Owners;
pub use calls::node_of;
pub use hearing::{HearFault, Heard, Hearing};
pub use network::{Network, hop_of, router_of};
pub use nodes::{Emitted, Nodes};
