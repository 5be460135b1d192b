//! A speaker of the Babel routing protocol (RFC 8966): its configuration, and the definitions of
//! its state and steps.
#![tactic(auto)]

mod configs;
mod errors;
mod interfaces;
mod items;
pub mod laws;
mod limits;
mod notes;
mod requests;
mod selected;

pub use configs::{Config, Interface};
pub use errors::{
    ConfigFault, NotAnnounced, RecvFault, RestoreFault, SetCostFault, TooManyPrefixes,
};
pub use interfaces::InterfaceEntry;
pub use items::{Item, Outgoing, Target};
pub use limits::{
    LAST_REQUEST_WAIT, MAX_COST, MAX_HELLO_INTERVAL, MAX_INTERFACES, MAX_PEERS, MAX_PENDING,
    MAX_PREFIXES, MAX_REQUESTS, REQUEST_HOPS, REQUEST_WAIT,
};
pub use notes::{Note, Verdict};
pub use requests::{PendingRequest, Resend};
pub use selected::{Choice, LastChoice, Selected};
