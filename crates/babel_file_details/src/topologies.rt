//! The sentence about a file of a topology that is refused: line and column, key, value, what is
//! allowed and what to do.
//!
//! `places` finds where in the file a fault is, `causes` which cause it has if there are several,
//! and `sentences` has what is written.

mod causes;
mod places;
mod sentences;

pub use sentences::explain_topology;
