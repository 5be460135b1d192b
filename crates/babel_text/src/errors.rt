//! Why a line of text isn't taken, and how long one may be.

ghost use Rattle.std.specs.Prelude.{◌≡◌};
ghost use Rattle.std.specs.IoError.{error_kind};
ghost use Rattle.babel_text.specs.Lines.{line_fault_code, reading_fault, writing_fault, hex_fault};
ghost use Rattle.babel_text.specs.declared.errors.LineFault.TheVariants.{Memory};

use hex::FromHexError;
use std::alloc::AllocError;
use std::io;
use thiserror::Error;

/// The most octets of a line, its line feed not counted: an address, a blank, and the largest
/// datagram in hexadecimal.
pub const MAX_LINE_LEN: usize = 131_200;

/// Why a line of input isn't taken, or a line of output isn't written. `code` is what the program
/// prints.
#[derive(Clone, Copy, Debug, PartialEq, Eq, Error)]
pub enum LineFault {
    /// L1: the line has none of the forms, or isn't UTF-8.
    #[error("the line has none of the forms")]
    Form,
    /// L2: a number can't be read, or is too large.
    #[error("not a number")]
    Number,
    /// L3: a text that should be an address isn't one.
    #[error("not an address")]
    Address,
    /// L4: a text that should be octets in hexadecimal isn't.
    #[error("not octets in hexadecimal")]
    Hex,
    /// L5: the line is longer than 131,200 octets.
    #[error("the line is longer than 131200 octets")]
    TooLong,
    /// L6: reading failed.
    #[error("reading failed")]
    Read,
    /// L7: writing failed.
    #[error("writing failed")]
    Write,
    /// L8: an allocation failed.
    #[error("out of memory")]
    Memory,
}

impl LineFault {
    /// The code that the program prints, as `L3`.
    pub fn code(self) -> &'static str
        ensures { result.now ≡ line_fault_code self }
    {
        match self {
            LineFault::Form => "L1",
            LineFault::Number => "L2",
            LineFault::Address => "L3",
            LineFault::Hex => "L4",
            LineFault::TooLong => "L5",
            LineFault::Read => "L6",
            LineFault::Write => "L7",
            LineFault::Memory => "L8",
        }
    }

    /// The fault of a call that only writes.
    pub fn of_writing(error: io::Error) -> LineFault
        ensures { result ≡ writing_fault (error_kind error) }
    {
        match error.kind() {
            io::ErrorKind::OutOfMemory => LineFault::Memory,
            _ => LineFault::Write,
        }
    }

    /// The fault of a call that only reads into room that it allocates.
    pub fn of_reading(error: io::Error) -> LineFault
        ensures { result ≡ reading_fault (error_kind error) }
    {
        match error.kind() {
            io::ErrorKind::OutOfMemory => LineFault::Memory,
            _ => LineFault::Read,
        }
    }
}

impl From<AllocError> for LineFault {
    ghost from_gives = { λ _ fault. fault ≡ Memory };

    fn from(_error: AllocError) -> LineFault {
        LineFault::Memory
    }
}

impl From<FromHexError> for LineFault {
    ghost from_gives = { λ error fault. fault ≡ hex_fault error };

    fn from(error: FromHexError) -> LineFault {
        match error {
            FromHexError::OutOfMemory => LineFault::Memory,
            _ => LineFault::Hex,
        }
    }
}
