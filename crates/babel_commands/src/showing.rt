//! The command `show`: what Babel datagrams mean (RFC 8966), as lines of text.

mod details;
mod explaining;
mod many;
mod one;
mod reading;
mod reporting;
mod status;

pub use details::Details;
pub use many::{BadLines, LineOptions, show_lines};
pub use one::{show, try_show, try_show_explained};
pub use reading::{READ_LEN, read_line};
pub use reporting::{LineCode, refuse, report};
pub use status::Status;
