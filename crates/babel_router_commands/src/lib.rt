//! The commands of a running router: `speak` and `run` are one, and `ask` asks one.
//!
//! - `tables`: each command as a table of its arguments; `help` has the texts after them.
//! - `speaking`: the command `speak`: the speaker of a configuration, over IPv4.
//! - `routing`: the command `run`: a speaker on the network's devices, over IPv6.
//! - `asking`: the command `ask`; `exchanges` has what goes over the control socket.
//! - `places`: what is at the place of a control socket that can't be used.
#![tactic(auto)]

mod asking;
mod exchanges;
mod help;
mod places;
mod routing;
mod speaking;
mod tables;

pub use asking::run_ask;
pub use routing::run_router;
pub use speaking::run_speak;
pub use tables::{ASK, RUN, SPEAK};
