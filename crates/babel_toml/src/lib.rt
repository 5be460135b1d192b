//! Values of TOML files, read one by one and at the keys of a table, and why a file is refused.
#![tactic(auto)]

mod errors;
mod values;

pub use errors::{FileFault, FileFaultCode};
pub use values::{Kind, given_or, optional, required};
