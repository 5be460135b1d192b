//! The entries of a route table (RFC 8966, section 3.2.6), and which of a prefix's routes is chosen
//! (section 3.6).
//!
//! - `entries`: what the route table keeps, and by which keys.
//! - `revisions`: changes of all entries at once.
//! - `bounds`: bounds on the prefixes of routes and selections.
//! - `walks`: walks over routes and selections.
//! - `choices`: the choice among the candidates of a prefix.
//! - `inputs`: what it is made from.
//! - `cursor`: where in the tables the last reselection was.
//!
//! All of it is over tables of `babel_table` that the caller has. No call takes memory.
#![tactic(auto)]

mod bounds;
mod choices;
mod cursor;
mod entries;
mod inputs;
mod revisions;
mod walks;

pub use bounds::{Before, Through};
pub use choices::{choose, choose_place, first_from, overtakes, peer_of, selection_at};
pub use cursor::Cursor;
pub use entries::{Entry, ReceivedUpdate, RouteKey, Selection};
pub use inputs::{ChoiceInputs, Costs, Origin};
pub use revisions::{Expiry, Flush, FlushEach, Retraction};
pub use walks::{AllRoutes, AllSelections, PrefixRoutes};
