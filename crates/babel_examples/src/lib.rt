//! Examples worked by hand, on which the check computes the definitions: each is the contract of a
//! function that does nothing. Then callers of the layers' calls, whose clauses follow from the
//! clauses of these calls.
//!
//! - `links`, `tables`, `sources` and `routes` have examples of the layers below the speaker.
//! - `states` has examples of a speaker's states, and of the steps between them.
//! - `callers` has the callers. The tests of `tests/unproved/layers` run them.
//!
//! Nothing here is a test, so one proof covers all of it.
#![tactic(auto)]

pub mod callers;
pub mod links;
pub mod routes;
pub mod sources;
pub mod states;
pub mod tables;
