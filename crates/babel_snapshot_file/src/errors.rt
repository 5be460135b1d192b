//! Why the file of a snapshot can't be read or written.

ghost use Rattle.std.specs.Prelude.{◌≡◌, ◌≢◌};
ghost use Rattle.std.specs.IoError.{error_kind};
ghost use Rattle.babel_snapshot_file.specs.Codes.{snapshot_file_code};
ghost use Rattle.babel_snapshot_file.specs.Faults.{reading_fault, writing_fault};
ghost use Rattle.babel_snapshot_file.specs.declared.errors.SnapshotFileFault.TheVariants.{Unreadable, Unwritable};

use std::alloc::AllocError;
use std::io;
use thiserror::Error;

/// Why the file of a snapshot can't be read or written.
#[derive(Clone, Copy, Debug, PartialEq, Eq, Error)]
pub enum SnapshotFileFault {
    /// K8: the file can't be read, or has more than 15,384 octets.
    #[error("the snapshot's file can't be read, or has more than 15384 octets")]
    Unreadable,
    /// K9: the file can't be written.
    #[error("the snapshot's file can't be written")]
    Unwritable,
    /// K9: a new speaker is to be kept in the file, and it is there.
    #[error("the snapshot's file is there already: start without --new, or name another file")]
    Existing,
    /// K10: another process keeps its snapshot in the file.
    #[error("another process keeps its snapshot in the file")]
    InUse,
    /// L8: an allocation failed.
    #[error("out of memory")]
    Memory,
}

impl SnapshotFileFault {
    /// The code that the program prints, as `K8`.
    pub fn code(self) -> &'static str
        ensures { result.now ≡ snapshot_file_code self }
    {
        match self {
            SnapshotFileFault::Unreadable => "K8",
            SnapshotFileFault::Unwritable => "K9",
            SnapshotFileFault::Existing => "K9",
            SnapshotFileFault::InUse => "K10",
            SnapshotFileFault::Memory => "L8",
        }
    }

    /// The fault of a call that opens or reads the file.
    pub fn of_reading(error: io::Error) -> SnapshotFileFault
        ensures fault { result ≡ reading_fault (error_kind error) }
        ensures reads { result ≢ Unwritable }
    {
        match error.kind() {
            io::ErrorKind::OutOfMemory => SnapshotFileFault::Memory,
            _ => SnapshotFileFault::Unreadable,
        }
    }

    /// The fault of a call that writes the file.
    pub(crate) fn of_writing(error: io::Error) -> SnapshotFileFault
        ensures fault { result ≡ writing_fault (error_kind error) }
        ensures writes { result ≢ Unreadable }
    {
        match error.kind() {
            io::ErrorKind::OutOfMemory => SnapshotFileFault::Memory,
            _ => SnapshotFileFault::Unwritable,
        }
    }
}

impl From<AllocError> for SnapshotFileFault {
    ghost use Rattle.babel_snapshot_file.specs.declared.errors.SnapshotFileFault.TheVariants.{Memory};

    ghost from_gives = { λ _ fault. fault ≡ Memory };

    fn from(_error: AllocError) -> SnapshotFileFault {
        SnapshotFileFault::Memory
    }
}
