//! A snapshot's file that one process keeps for as long as it runs.

use crate::locking::{LockFile, lock};
use crate::replacing::keep_file;
use crate::{SnapshotFileFault, read_snapshot};
use std::alloc::Global;
use std::fs::{self, Files};

/// Whether the file is there before the process begins.
#[derive(Clone, Copy)]
pub enum StoreStart {
    /// It is: the speaker is restored from it.
    Existing,
    /// It isn't: the speaker is a new one.
    New,
}

/// The file in which a process keeps its snapshot, and whether it is there.
#[derive(Clone, Copy)]
pub struct Kept<'a> {
    /// The file's name.
    pub path: &'a str,
    /// Whether the speaker is restored from it, or is a new one.
    pub start: StoreStart,
}

/// A snapshot's file, locked against other processes.
#[derive(Drop)]
pub struct SnapshotStore<'a, F: Files> {
    alloc: Global,
    files: &'a F,
    path: &'a str,
    // The lock is held until this is closed.
    _lock: F::File,
}

impl<'a, F: Files> SnapshotStore<'a, F>
where
    F::File: LockFile,
{
    /// Locks the file, and then reads it, or finds that there is none.
    ///
    /// # Errors
    ///
    /// K10 if another process keeps the file. K8 if it is to be there and can't be read, K9 if it
    /// isn't and is, or if the lock can't be made. L8 if an allocation fails.
    pub fn open(
        alloc: Global,
        files: &'a F,
        kept: Kept<'a>,
    ) -> Result<(SnapshotStore<'a, F>, Option<Vec<u8>>), SnapshotFileFault> {
        let Kept { path, start } = kept;
        let lock = lock(alloc, files, path)?;
        let octets = match start {
            StoreStart::Existing => {
                let file = fs::open(files, path).map_err(SnapshotFileFault::of_reading)?;
                Some(read_snapshot(alloc, file)?)
            }
            StoreStart::New => {
                if fs::symlink_metadata(files, path).is_ok() {
                    return Err(SnapshotFileFault::Existing);
                }
                None
            }
        };
        let store = SnapshotStore {
            alloc,
            files,
            path,
            _lock: lock,
        };
        Ok((store, octets))
    }

    /// Replaces what is in the file. On `Ok` the octets are on disk.
    ///
    /// # Errors
    ///
    /// K9 if a step fails, also the sync of the folder: then the file has the old octets or the new
    /// ones. L8 if an allocation fails.
    pub fn keep(&self, octets: &[u8]) -> Result<(), SnapshotFileFault> {
        keep_file(self.alloc, self.files, self.path, octets)
    }
}
