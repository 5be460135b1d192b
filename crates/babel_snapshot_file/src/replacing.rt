//! A file that is written whole or not at all.

use crate::SnapshotFileFault;
use std::alloc::{AllocError, Global};
use std::fs::{self, Files, OpenFile, OpenOptions};
use std::io::{self, Write};
use std::path::Path;

/// What the name of the temporary file has after the file's.
const TEMPORARY_END: &str = ".tmp";

/// Makes a file of the octets, in place of the one that may be there.
///
/// They are written to a temporary file next to it, whose name has `.tmp` at its end, and synced.
/// Then that file gets the name. So whenever a crash comes, the file has its old octets or all of
/// the new ones.
///
/// # Errors
///
/// K9 if something other than a file has the name, or if a step fails; L8 if an allocation fails.
/// Then the file is as it was.
pub fn replace_file<F: Files>(
    alloc: Global,
    files: &F,
    path: &str,
    octets: &[u8],
) -> Result<(), SnapshotFileFault> {
    replace(alloc, files, path, octets)?;
    // Some file systems can't sync a folder. After a crash the file is whole then too, the old or
    // the new.
    let _ = sync_folder(files, path);
    Ok(())
}

/// The same, and the new octets survive a crash of the machine.
///
/// # Errors
///
/// Those of [`replace_file`], and K9 if the folder can't be synced: then the file has the new
/// octets, but after a crash it may have the old ones.
pub(crate) fn keep_file<F: Files>(
    alloc: Global,
    files: &F,
    path: &str,
    octets: &[u8],
) -> Result<(), SnapshotFileFault> {
    replace(alloc, files, path, octets)?;
    sync_folder(files, path).map_err(SnapshotFileFault::of_writing)
}

fn replace<F: Files>(
    alloc: Global,
    files: &F,
    path: &str,
    octets: &[u8],
) -> Result<(), SnapshotFileFault> {
    let temporary = temporary_path(alloc, path)?;
    if is_other_than_file(files, path) {
        return Err(SnapshotFileFault::Unwritable);
    }
    if let Err(error) = write_and_rename(files, temporary.as_str(), path, octets) {
        // What was written of it is of no use; the fault of this is not the one to report.
        let _ = fs::remove_file(files, temporary.as_str());
        return Err(SnapshotFileFault::of_writing(error));
    }
    Ok(())
}

fn temporary_path(alloc: Global, path: &str) -> Result<String, AllocError> {
    let mut temporary = String::new(alloc);
    temporary.push_str(path)?;
    temporary.push_str(TEMPORARY_END)?;
    Ok(temporary)
}

/// Whether a folder, a device or the like has the name. A file would take its place.
fn is_other_than_file<F: Files>(files: &F, path: &str) -> bool {
    match fs::metadata(files, path) {
        Ok(metadata) => !metadata.is_file(),
        Err(_) => false,
    }
}

fn write_and_rename<F: Files>(
    files: &F,
    temporary: &str,
    path: &str,
    octets: &[u8],
) -> io::Result<()> {
    // A crash may have left one.
    let _ = fs::remove_file(files, temporary);
    let mut file = OpenOptions::new()
        .write(true)
        .create_new(true)
        .open(files, temporary)?;
    file.write_all(octets)?;
    file.sync_all()?;
    fs::rename(files, temporary, path)
}

/// Syncs the folder of the path, so that the file's new octets survive a crash of the machine.
fn sync_folder<F: Files>(files: &F, path: &str) -> io::Result<()> {
    let folder = match Path::new(path).parent() {
        Some(folder) if folder.as_str() != "" => folder.as_str(),
        _ => ".",
    };
    fs::open(files, folder)?.sync_all()
}
