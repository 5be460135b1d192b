//! The lines that the commands print, in another form: as JSON objects, with short IPv6 addresses,
//! or some of them alone.
//!
//! The text is the one source: an object is made of a line, so both mean the same. Nothing here
//! depends on a command's work, and a line without options goes the way that it went before.
//!
//! - `writers`: [`FormWriter`], through which the standard output goes.
//! - `reports`: the lines of each [`Report`], and the object that each becomes; `shapes` has their
//!   fields, and `words` splits them.
//! - `faults`: [`FaultWriter`], through which the standard error goes; `places` finds file, line
//!   and column in a sentence, and `keys` the key that it is about.
//! - `selecting`: [`LineFilter`], which lines of a report are written.
//! - `shortening`: IPv6 addresses as RFC 5952 writes them.
//! - `objects`: an object with its members in order, written by `serde_json`.
#![tactic(auto)]

mod faults;
mod keys;
mod objects;
mod places;
mod reports;
mod selecting;
mod shapes;
mod shortening;
mod words;
mod writers;

pub use faults::{FaultForm, FaultWriter};
pub use reports::Report;
pub use selecting::{FilteredReport, LineFilter, WORDS};
pub use writers::{Addresses, Form, FormWriter};
