//! The file of a topology: named nodes and links, and a plan of what happens in them.
//!
//! `keys` has the keys of the file's tables and what their values are, `problems` the first fault
//! of a file, `tables` what is at a key of a table without one, and `nodes`, `links`, `interfaces`,
//! `plans` and `reading` what is read.

mod interfaces;
mod keys;
mod links;
mod nodes;
mod plans;
mod problems;
mod reading;
mod tables;

pub use keys::{FILE_KEYS, Kind, LINK_KEYS, NODE_KEYS};
pub use problems::{Cause, Part, Problem, first_problem};
pub use reading::{MAX_FILE_LEN, read_topology};
