//! The command `check`: whether a speaker can be made of a configuration, or restored from a
//! snapshot.

mod checking;

pub use checking::{check, try_check};
