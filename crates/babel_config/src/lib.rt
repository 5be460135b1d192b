//! Configurations and scenarios, read from TOML files.
//!
//! `scalars` has the kinds of single values, `configs` and `scenarios` have the keys of each table.
#![tactic(auto)]

mod configs;
mod events;
mod files;
mod heard;
mod keys;
mod lists;
mod scalars;
mod scenario_events;
mod scenarios;

pub use babel_toml::{FileFault, FileFaultCode};
pub use files::{MAX_FILE_LEN, read_config, read_file, read_scenario};
pub use heard::HeardDatagram;
pub use scenario_events::ScenarioEvent;
pub use scenarios::Scenario;
