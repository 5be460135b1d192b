//! The control socket of a running speaker: its protocol, and the socket with its clients.
//!
//! The protocol is that of babeld's local socket, with commands of our own. A client is greeted,
//! sends commands, a line each, and gets lines that end with `ok`, `no` or `bad`. A client that
//! monitors is also sent each change.
//!
//! The protocol is sans-IO, octets of a client in and octets for it out:
//!
//! - `commands`: what a line asks for.
//! - `input`: the line that a client has sent so far. `output`: what waits for it. Both are
//!   bounded.
//! - `views`: what the socket shows of a speaker and its devices.
//! - `texts`: addresses, prefixes and router-ids, as babeld writes them. `lines`: the lines of the
//!   protocol.
//! - `rows`: the speaker's tables as these lines show them, and `changes`: what changed of them.
//! - `replies`: the reply to a command. `clients`: a client. `places`: where a control socket is.
//!
//! `socket` alone has input and output: it makes the socket, and reads from its clients and writes
//! to them.
#![tactic(auto)]

mod changes;
mod clients;
mod commands;
mod input;
mod lines;
mod output;
mod places;
mod replies;
mod rows;
mod socket;
mod texts;
mod views;

pub use changes::Changes;
pub use clients::{Access, Client, Monitoring, Stage, Wish, needs_tables};
pub use commands::{Command, Logging, parse_command};
pub use input::{InputLine, MAX_LINE, TakenOctet};
pub use lines::VERSION;
pub use output::{MAX_OUTPUT, Output, OutputFull};
pub use places::{ControlPlace, parse_place};
pub use rows::{Expiries, Installed, NeighbourRow, RouteRow, Rows, Tables};
pub use socket::{ControlSocket, MAX_CLIENTS, bind_path, local_address};
pub use views::{DeviceAddresses, DeviceView, Keeping, LogSource, TurnCounts, View};
