//! What the commands of the program have in common: their arguments, and what becomes of the files
//! and of the standard output that the arguments name.
//!
//! - `tables`: a [`Subcommand`] as a table of its arguments, with the texts of its help.
//! - `shared`: the arguments that commands of several crates take.
//! - `parsing`: the words of the command line, and what `clap` makes of them by the tables.
//! - `reading`: arguments that the commands read in the same way.
//! - `noting`: the standard output, and why it couldn't be written.
//! - `opening`: the files of a configuration and of its snapshot.
//! - `files`: files that are read a second time, to say what is wrong with them.
#![tactic(auto)]

mod files;
mod noting;
mod opening;
mod parsing;
mod reading;
mod shared;
mod tables;

pub use files::{FileFailure, explain_unreadable, failure_of, octets_of, open_again};
pub use noting::{Colours, NotingWriter, colours_at, explain_output};
pub use opening::{kept, open_config, open_snapshot};
pub use parsing::{WordsFault, parse, read_words};
pub use reading::{argument, until_of, wants_details};
pub use shared::{DETAILS, KEEP, NEW, RESTORE};
pub use tables::{
    Argument, CommandName, FLAG, OPTION, POSITIONAL, Place, Program, Rule, Subcommand, Takes,
};
