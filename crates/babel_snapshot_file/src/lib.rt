//! Files of snapshots: a speaker is restored from one, and saved to one (RFC 8966, sections 3.2.2
//! and 3.2.5).
//!
//! `reading` takes the octets of a file, `replacing` writes a file whole or not at all, `locking`
//! keeps other processes from it, `storing` is a file that a process keeps as long as it runs, and
//! `codes` has the codes that are printed.
#![tactic(auto)]

mod codes;
mod errors;
mod locking;
mod reading;
mod replacing;
mod storing;

pub use codes::RestoreCode;
pub use errors::SnapshotFileFault;
pub use locking::LockFile;
pub use reading::{MAX_SNAPSHOT_LEN, read_snapshot};
pub use replacing::replace_file;
pub use storing::{Kept, SnapshotStore, StoreStart};
