//! The program `babel`: reads the command line, and calls the command with the standard streams.
//!
//! The commands are functions of the libraries `babel_report_commands`, `babel_topology_commands`
//! and `babel_router_commands`, and so are the tables of their arguments. `commands` lists them,
//! `dispatch` calls them, `usage` has what is written in their place, and `help` the help of the
//! program.
#![tactic(auto)]

mod commands;
mod dispatch;
mod help;
mod usage;

use babel_arguments::{NotingWriter, colours_at, read_words};
use babel_json::FormWriter;
use dispatch::run;
use std::process::ExitCode;
use usage::report_words;

fn main(rt: HostRuntime) -> ExitCode {
    let mut err = rt.stderr();
    let status = match read_words(&rt) {
        Ok(words) => {
            let out = rt.stdout();
            let colours = colours_at(&rt, &out);
            let out = NotingWriter::new(FormWriter::new(rt.alloc(), out), colours);
            run(&rt, &words, &mut rt.stdin(), out, &mut err)
        }
        Err(fault) => report_words(fault, &mut err),
    };
    ExitCode::from(status)
}
