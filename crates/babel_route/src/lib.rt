//! The route table of a Babel speaker (RFC 8966, section 3.2.6), with route selection (section
//! 3.6).
//!
//! - `routes`: the route table with its selections.
//! - `tables`: the tables of `babel_table` that both are kept in.
//! - `trail`: where the next update is likely to be.
//! - `laws`: laws of the definitions.
//!
//! The route table is over tables of `babel_table`, and takes its whole room when it is made.
//! Afterwards no call takes memory. The source table is that of `babel_sources`. Its entries, and
//! the choice among them, are those of `babel_choice`.
#![tactic(auto)]

pub mod laws;
mod routes;
mod tables;
mod trail;

pub use babel_choice::{Costs, Entry};
pub use babel_sources::Sources;
pub use babel_table::{Full, Memory, Steps, Table};
pub use routes::{
    OnRepeat, OriginChange, PREFIX_PLACES, PrefixWalk, ROUTE_PLACES, Refreshed, Report, Routes,
    RoutesOver, SelectionChange,
};
pub use tables::{RouteTable, SelectionTable};
pub use trail::Trail;
