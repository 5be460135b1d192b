//! Sentences about a file that is refused: line and column, key, value, what is allowed, and what
//! to do.
//!
//! A code is for scripts; these sentences are for people. Each `explain_` call finds the cause of
//! a fault whose code is known, and writes one line. `sentences` has what such a line is made of.
//!
//! - `explaining` has the calls for the files of configurations and of scenarios. `schema` finds
//!   the first fault of a file's keys, `configs`, `networks` and `events` that of what was read,
//!   and `warnings` what can't work.
//! - `routers` has the call for the file of `run --config`, and `topologies` that for a topology.
//! - `toml_places` finds a key in the text again.
#![tactic(auto)]

mod configs;
mod events;
mod explaining;
mod findings;
mod locations;
mod nearest;
mod networks;
mod routers;
mod rules;
mod schema;
mod sentences;
mod toml_places;
mod topologies;
mod warnings;

pub use explaining::{
    FileKind, explain_config, explain_event, explain_file, explain_hearing, explain_network,
    explain_transport, write_warnings,
};
pub use routers::explain_router_file;
pub use toml_places::FileText;
pub use topologies::explain_topology;
