//! The lock of a snapshot's file: one process alone may keep a snapshot in it.

use crate::SnapshotFileFault;
use std::alloc::Global;
use std::fs::{File, Files, OpenOptions, TryLockError};

/// What the name of the lock has after the file's.
const LOCK_END: &str = ".lock";

/// A file that can be locked against other processes.
pub trait LockFile {
    /// Locks the file until it is closed. It doesn't wait.
    ///
    /// # Errors
    ///
    /// K10 if another process holds the lock, K9 if the file can't be locked.
    fn lock_now(&self) -> Result<(), SnapshotFileFault>;
}

impl LockFile for File {
    fn lock_now(&self) -> Result<(), SnapshotFileFault> {
        match self.try_lock() {
            Ok(()) => Ok(()),
            Err(TryLockError::WouldBlock) => Err(SnapshotFileFault::InUse),
            Err(TryLockError::Error(error)) => Err(SnapshotFileFault::of_writing(error)),
        }
    }
}

/// Takes the lock of the snapshot's file: the file with `.lock` at the end of its name, which is
/// made if it isn't there, and never renamed or removed. The lock is held as long as what is
/// returned.
///
/// # Errors
///
/// K10 if another process holds it, K9 if it can't be made, L8 if an allocation fails.
pub(crate) fn lock<F: Files>(
    alloc: Global,
    files: &F,
    path: &str,
) -> Result<F::File, SnapshotFileFault>
where
    F::File: LockFile,
{
    let mut name = String::new(alloc);
    name.push_str(path)?;
    name.push_str(LOCK_END)?;
    let file = OpenOptions::new()
        .write(true)
        .create(true)
        .open(files, name.as_str())
        .map_err(SnapshotFileFault::of_writing)?;
    file.lock_now()?;
    Ok(file)
}
