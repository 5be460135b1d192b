//! Why a file is refused.

ghost use Rattle.std.specs.Prelude.{◌≡◌};

use std::alloc::{AllocError, AllocFailed};
use std::{fmt, io};
use thiserror::Error;

/// Why a file of a configuration or of a scenario is refused. The text is a phrase;
/// [`FileFault::code`] has the code that the program prints.
#[derive(Clone, Copy, Debug, PartialEq, Eq, Drop, Error)]
pub enum FileFault {
    /// F1: the octets are no TOML document.
    #[error("the file isn't TOML")]
    NotToml,
    /// F2: a key is unknown, missing or of the wrong kind, or a number is out of range.
    #[error("a key is unknown, missing or of the wrong kind, or a number is out of range")]
    Form,
    /// F3: the text of an address, a prefix or a router-id can't be read.
    #[error("the text of an address, a prefix or a router-id can't be read")]
    Text,
    /// F4: an allocation failed.
    #[error("out of memory")]
    Memory,
    /// F5: the file can't be read, or has more than 1,048,576 octets.
    #[error("the file can't be read, or has more than 1048576 octets")]
    Unreadable,
    /// F6: the text of this event, counted from 0, can't be read.
    #[error("the text of event {0} can't be read")]
    Event(usize),
}

impl FileFault {
    /// The code that the program prints, for instance `F6 0`.
    pub fn code(self) -> FileFaultCode
        ensures { result.fault ≡ self }
    {
        FileFaultCode { fault: self }
    }
}

/// The code of a fault as text: `F1` to `F6`, with the number of the event after `F6`.
#[derive(Clone, Copy)]
pub struct FileFaultCode {
    /// The fault.
    pub fault: FileFault,
}

/// The code, with the number of the event after `F6`.
impl fmt::Display for FileFaultCode {
    ghost use Rattle.std.specs.Prelude.{Some};
    ghost use Rattle.babel_toml.specs.Faults.{fault_text};

    ghost output = { λ code. Some (fault_text code.fault) };

    fn fmt<W: fmt::Write>(&self, f: &mut fmt::Formatter<W>) -> fmt::Result {
        f.write_str(match self.fault {
            FileFault::NotToml => "F1",
            FileFault::Form => "F2",
            FileFault::Text => "F3",
            FileFault::Memory => "F4",
            FileFault::Unreadable => "F5",
            FileFault::Event(number) => return write!(f, "F6 {number}"),
        })
    }
}

impl From<AllocError> for FileFault {
    ghost use Rattle.babel_toml.specs.declared.errors.FileFault.TheVariants.{Memory};

    ghost from_gives = { λ _ fault. fault ≡ Memory };

    fn from(_error: AllocError) -> FileFault {
        FileFault::Memory
    }
}

impl<T: Drop> From<AllocFailed<T>> for FileFault {
    ghost use Rattle.babel_toml.specs.declared.errors.FileFault.TheVariants.{Memory};

    ghost from_gives = { λ _ fault. fault ≡ Memory };

    fn from(_error: AllocFailed<T>) -> FileFault {
        FileFault::Memory
    }
}

/// The fault of a call that opens or reads a file.
impl From<io::Error> for FileFault {
    ghost use Rattle.std.specs.Prelude.{◌≡◌};
    ghost use Rattle.std.specs.IoError.{error_kind};
    ghost use Rattle.babel_toml.specs.Faults.{reading_fault};

    ghost from_gives = { λ error fault. fault ≡ reading_fault (error_kind error) };

    fn from(error: io::Error) -> FileFault {
        match error.kind() {
            io::ErrorKind::OutOfMemory => FileFault::Memory,
            _ => FileFault::Unreadable,
        }
    }
}
