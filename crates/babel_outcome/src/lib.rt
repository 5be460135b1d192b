//! What is known of a simulated run of a topology, and what people and machines read of it.
//!
//! - `outcome` has what is known: next hops that changed, phases, ways, counts, and what was
//!   expected.
//! - `shown` has what is shown of it, and the texts of its parts: times, names, steps.
//! - `tables` lays tables out, and `texts` writes those of a run.
//! - `objects` writes JSON objects, a line each.
#![tactic(auto)]

mod objects;
mod outcome;
mod shown;
mod tables;
mod texts;

pub use objects::write_objects;
pub use outcome::{Counts, HopChange, HopKind, Outcome, Phase, Quality, Route, RouteKind, Tested};
pub use shown::{Shown, StepText, is_as_expected};
pub use texts::write_text;
