//! Tables: at most a fixed number of values, each at a key of its own.
//!
//! - `keys`: what a key is, and how a look-up sees it.
//! - `steps`: counters of comparisons, which take no room at run time.
//! - `table`: the trait `Table`, and calls over any table.
//! - `sorted`, `plain`: the two tables.
//! - `sequences`, `gap`: what a table in order keeps its entries in.
//! - `revisions`, `dues`: a revision of all entries in one pass, and when what it leaves is due.
//! - `bounds`: indices in any table by a bound on its keys.
//! - `near`: searches that begin where the last one ended.
//! - `laws`: laws of the definitions.
//!
//! A table takes its whole room when it is made. Afterwards no call takes memory.
#![tactic(auto)]

mod bounds;
mod dues;
mod errors;
mod gap;
mod keys;
pub mod laws;
mod near;
mod plain;
mod revisions;
mod sequences;
mod sorted;
mod steps;
mod table;

pub use babel_value::Memory;
pub use bounds::{Bound, places_below};
pub use dues::{Due, Moments, least_due, revise_dues};
pub use errors::Full;
pub use keys::{Key, Sought};
pub use near::{change_near, find_near, places_below_near, put_near, seek_near};
pub use plain::PlainTable;
pub use revisions::{Change, Revised, Revision};
pub use sorted::{GapTable, SortedTable};
pub use steps::Steps;
pub use table::{Table, find_in, set, set_near};
