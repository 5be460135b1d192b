//! The sentences on the fault of a command: which of its files or arguments it is about.
//!
//! The sentence on what is in a file is in `babel_file_details`, that on a line in
//! `babel_line_details`.
//!
//! - `faults`: the sentence on each fault of a command.
//! - `configs`: that on the file of a configuration or a scenario, and its warnings.
//! - `snapshots`: that on the file of a snapshot.
//! - `logs`: that on a line of a log, and why `explain` shows no route.
#![tactic(auto)]

mod configs;
mod faults;
mod logs;
mod snapshots;

pub use configs::warn;
pub use faults::explain_fault;
pub use logs::explain_absence;
