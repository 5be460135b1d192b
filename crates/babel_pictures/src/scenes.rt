//! The picture of a simulated network at a moment, and of what its nodes did with packets to a
//! prefix.
//!
//! - `pictures` makes the picture of what is known of a run.
//! - `histories` has what each node did from the beginning to the end.
//! - `states` has the links as they are at a moment.

mod histories;
mod pictures;
mod states;

pub use pictures::{Scene, picture_of};
