//! The commands: `show`, `check`, `replay`, `explain` and `net`.
//!
//! A command is a public function over readers and writers that returns the exit status. Files are
//! readers, and arguments are text.
//!
//! - `showing`: the command `show`: what Babel datagrams mean (RFC 8966), as lines of text.
//! - `faults`: why a command refuses, and the line that says so. All commands have these faults in
//!   common.
//! - `checking`: the command `check`: whether a speaker can be made of a configuration, or restored
//!   from a snapshot.
//! - `reporting`: the commands `replay` and `explain`: what a speaker makes of a log, and why
//!   routes are used or not.
//! - `hops`: the command `net`: the next hops of a network after each event of a scenario.
#![tactic(auto)]

mod checking;
mod faults;
mod hops;
mod reporting;
mod showing;

pub use checking::{check, try_check};
pub use faults::{Fault, end, report_fault};
pub use hops::{EventFault, EventLines, net, try_net};
pub use reporting::{
    Absence, Log, LogUntil, SelectedLog, absence_of, explain, replay, try_explain, try_replay,
    try_replay_selected,
};
pub use showing::{
    BadLines, Details, LineCode, LineOptions, READ_LEN, Status, read_line, refuse, report, show,
    show_lines, try_show, try_show_explained,
};
