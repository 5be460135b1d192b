//! The lines of the reports on a log, each put together in one `Line` with its line feed. Those
//! that are written for the lines of a log take the place of what was in a `Line`, which is used
//! again and again.
//!
//! `notes` has the lines of a datagram, `choices` those of the selected routes, and `routes` the
//! line of one route.

pub mod choices;
pub mod notes;
pub mod parts;
pub mod routes;

pub use babel_state::Choice;
pub use choices::{push_selection, set_select, set_select_head, table_line};
pub use notes::{push_tlv, set_cost_refused, set_moment, set_out, set_refused};
pub use routes::{RouteLine, RouteStatus, route_line};
