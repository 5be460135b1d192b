//! The commands `replay` and `explain`: what a speaker makes of a log, and why routes are used or
//! not.

mod absence;
mod explaining;
mod log_places;
mod log_until;
mod replaying;
mod sentences;
mod sightings;

pub use absence::{Absence, absence_of};
pub use explaining::{explain, try_explain};
pub use log_until::{Log, LogUntil};
pub(crate) use replaying::config_in;
pub use replaying::{SelectedLog, replay, try_replay, try_replay_selected};
