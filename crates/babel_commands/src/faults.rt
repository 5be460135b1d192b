//! Why a command refuses, and the line that says so. All commands have these faults in common.

mod faults;
mod reporting;

pub use faults::Fault;
pub use reporting::{end, report as report_fault};
