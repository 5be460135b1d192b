//! What an operator asks a running speaker, and how its reply is shown: the pure part of
//! `babel ask`.
//!
//! - `questions`: what is asked, and the commands of the control socket that ask it.
//! - `fields`: the fields of a reply's line. `columns`: which of them are shown, and `cells` what
//!   of them.
//! - `tables`: aligned tables for people, and `objects`: a JSON object a line, for scripts.
//! - `reasons`: a sentence for each route of a prefix, and `requests` for each pending request.
//!   `replies` shows a whole reply, and `logs` a line of the log.
#![tactic(auto)]

mod cells;
mod columns;
mod fields;
mod logs;
mod objects;
mod questions;
mod reasons;
mod replies;
mod requests;
mod tables;

pub use logs::show_log_line;
pub use questions::{Question, parse_question};
pub use replies::{AnswerForm, AskFault, show_answer};
