//! The commands that print a report: `show`, `check`, `replay`, `explain` and `net`.
//!
//! What they do is in `babel_commands`. Here are their arguments, and the files that these name.
//!
//! - `tables`: each command as a table of its arguments; `help` has the texts after them.
//! - `datagrams`: runs `show`.
//! - `files`: runs the commands that read files.
//! - `forms`: in which form a command writes: as text or as JSON objects.
#![tactic(auto)]

mod datagrams;
mod files;
mod forms;
mod help;
mod tables;

pub use datagrams::{run_show, show_input};
pub use files::{run_check, run_explain, run_net, run_replay};
pub use forms::{fault_form, files_of, form_of};
pub use tables::{CHECK, EXPLAIN, NET, REPLAY, SHOW};
