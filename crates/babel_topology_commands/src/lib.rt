//! The commands over topologies: `simulate` runs the network of one, and `topology` writes one.
//!
//! - `tables`: each command as a table of its arguments; `help` has the texts after them.
//! - `simulating`: the command `simulate`.
//! - `progress` shows a terminal how far it is, and `pictures` writes the files of its pictures.
//! - `targets`: the options that name files to be written.
//! - `refusals`: why it is refused.
//! - `topologies`: the command `topology`.
#![tactic(auto)]

mod help;
mod pictures;
mod progress;
mod refusals;
mod simulating;
mod tables;
mod targets;
mod topologies;

pub use simulating::run_simulate;
pub use tables::{SIMULATE, TOPOLOGY};
pub use topologies::run_topology;
