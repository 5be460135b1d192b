//! Sentences about lines, for people: a code is for scripts.
//!
//! - About a line of input that can't be read: which field, its text, and what is allowed. `logs`
//!   finds the field of a log's line, `shown` that of a line or an argument of `show`, and
//!   `problems` has the sentences.
//! - About a line of a report: what its code means. `report_codes` has the sentences, and
//!   `seen_codes` the codes that were explained.
#![tactic(auto)]

mod excerpts;
mod logs;
mod problems;
mod report_codes;
mod seen_codes;
mod shown;

pub use excerpts::Excerpt;
pub use logs::explain_log_line;
pub use problems::{HexProblem, LineDetail, LineProblem, NumberField};
pub use report_codes::ReportCode;
pub use seen_codes::SeenCodes;
pub use shown::{explain_hex, explain_shown_line};
