//! The file of `run --config`: what a router is, and its settings by device.
//!
//! `keys` has the keys of the file's tables and what their values are, `problems` the first fault
//! of a file, and `reading` what is read of a file without one.
#![tactic(auto)]

mod keys;
mod problems;
mod reading;

pub use keys::{DEVICE, DEVICE_KEYS, FILE_KEYS, Kind};
pub use problems::{Cause, Problem, first_problem};
pub use reading::{DeviceTable, RouterFile, read_router_file};
