//! Speakers of a network that are killed at any moment and started again from what they kept:
//! definitions, and laws over them. `babel_wire` drives a speaker so.
#![tactic(auto)]

pub mod laws;
