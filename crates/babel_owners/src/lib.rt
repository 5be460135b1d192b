//! Which configurations a network can be made of, and which of its nodes has an address.
#![tactic(auto)]

mod acceptance;
mod owners;

pub use acceptance::net_fault;
pub use owners::Owners;
