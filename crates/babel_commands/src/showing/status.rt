//! The exit status of a command.

use std::process::ExitCode;

/// How a command ended.
#[derive(Clone, Copy, Debug, PartialEq, Eq)]
pub enum Status {
    /// 0: it did what was asked.
    Done,
    /// 1: it refused, and wrote a code.
    Refused,
    /// 2: the arguments aren't one of the commands.
    Usage,
}

impl From<Status> for ExitCode {
    fn from(status: Status) -> ExitCode {
        ExitCode::from(match status {
            Status::Done => 0u8,
            Status::Refused => 1,
            Status::Usage => 2,
        })
    }
}
