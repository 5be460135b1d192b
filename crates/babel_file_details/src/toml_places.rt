//! Where a key or a value is in the text of a TOML document.
//!
//! `locating` finds a value along a path of `paths`, `skipping` passes over values, and `positions`
//! counts lines and columns. `files` has files by their names.

mod files;
mod locating;
mod paths;
mod positions;
mod skipping;

pub use files::FileText;
pub use paths::{Path, Step};
pub use positions::{Position, Side, position_at};
