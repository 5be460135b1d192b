//! Logs of what a speaker of the Babel routing protocol (RFC 8966) received, run again.
//!
//! - [`replay`] writes what the speaker makes of each line, and the routes that it selects.
//! - [`explain`] writes the routes of one prefix after the log, and why each is used or not.
//!
//! `reading` takes the log's lines, `replaying` and `explaining` are the two calls, and `lines` has
//! the lines that they write. What a line of a log means is defined and read by `babel_text`.
#![tactic(auto)]

mod counting;
mod errors;
mod explaining;
mod lines;
mod reading;
mod replaying;
mod seen;
mod stepping;

pub use babel_config::{
    FileFault, HeardDatagram, Scenario, ScenarioEvent, read_config, read_scenario,
};
pub use babel_text::{Action, Event, LineFault, MAX_LINE_LEN, parse_line};
pub use counting::count_messages;
pub use errors::ReplayFault;
pub use explaining::{explain, route_fields};
pub use lines::{
    Choice, RouteLine, RouteStatus, push_tlv, route_line, set_moment, set_out, set_refused,
    set_select,
};
pub use replaying::replay;
