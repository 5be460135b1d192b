//! Files of topologies in regular shapes and at random.
//!
//! `parents` has the links of a node to the nodes before it, and `writing` the file.

mod parents;
mod writing;

pub use parents::{Parents, Shape};
pub use writing::{MAX_SEED, write_topology};
