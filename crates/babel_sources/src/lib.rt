//! The source table of a Babel speaker, which holds the feasibility distances (RFC 8966, section
//! 3.2.5).
//!
//! - `sources`: the source table.
//! - `source_table`: the table of `babel_table` that it is kept in.
//! - `laws`: laws of the definitions.
//!
//! It is over a table of `babel_table`, and takes its whole room when it is made. Afterwards no
//! call takes memory.
#![tactic(auto)]

pub mod laws;
mod source_table;
mod sources;

pub use source_table::SourceTable;
pub use sources::{COLLECTION_TIME, SOURCE_PLACES, SourceEntry, Sources, SourcesOver};
