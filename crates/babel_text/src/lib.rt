//! Values read from text, as files and logs write them, the lines of a log, and the faults of
//! lines. Addresses are read by `babel_value`.
//!
//! Nothing here allocates.
#![tactic(auto)]

mod errors;
mod fields;
pub mod laws;
mod log_lines;
mod numbers;
mod octets;
mod prefixes;
mod router_ids;

pub use errors::{LineFault, MAX_LINE_LEN};
pub use fields::{split_event_word, split_field};
pub use log_lines::{Action, Event, is_skipped, parse_line};
pub use numbers::{parse_u8, parse_u16, parse_u64, split_number, split_u8, u8_of, u16_of, u64_of};
pub use octets::parse_octets;
pub use prefixes::{parse_network, parse_prefix};
pub use router_ids::parse_router_id;
