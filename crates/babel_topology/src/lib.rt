//! Topologies: networks of named nodes and links, and a plan of what happens in them.
//!
//! - `topology` has the types, and `errors` why a file of a topology is refused.
//! - `plans` adds steps to a plan in the order of their moments.
//! - `words`, `times`, `verbs`, `names` and `actions` read texts: times, what happens to which node
//!   or link, and what is expected.
//! - `file` reads the file of a topology, and `shapes` writes files of regular and random ones.
#![tactic(auto)]

mod actions;
mod errors;
pub mod file;
mod names;
mod plans;
pub mod shapes;
mod times;
mod topology;
mod verbs;
mod words;

pub use actions::{parse_expectation, parse_step};
pub use errors::{TopologyFault, TopologyFaultCode};
pub use names::{find_node, link_between};
pub use plans::push_step;
pub use times::parse_time;
pub use topology::{
    Action, End, Expectation, Link, MAX_INTERFACES, MAX_NODES, NextHop, Node, Restarts, Step,
    Topology,
};
