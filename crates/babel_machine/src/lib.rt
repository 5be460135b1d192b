//! Networks of Babel speakers (RFC 8966), and why their routes never form a loop.
//!
//! `machine` is the message machine, from whose steps alone loop freedom follows.
#![tactic(auto)]

mod errors;
mod events;
pub mod laws;
pub mod machine;

pub use errors::{MachineFault, NetFault, StepFault};
pub use events::Event;
