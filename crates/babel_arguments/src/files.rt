//! Files that are read a second time, to say what is wrong with them.

use babel_config::{FileFault, MAX_FILE_LEN, read_file};
use std::alloc::Global;
use std::fmt;
use std::fs::{self, Files};
use std::io::{self, Write};

/// Opens a file again, if it can be read again: a pipe gives its octets once, and a device may have
/// no end.
pub fn open_again<F: Files>(rt: &F, path: &str) -> Option<F::File> {
    match fs::metadata(rt, path) {
        Ok(metadata) if metadata.is_file() => fs::open(rt, path).ok(),
        _ => None,
    }
}

/// The octets of a TOML file, if it can be read again.
pub fn octets_of<F: Files>(alloc: Global, rt: &F, path: &str) -> Option<Vec<u8>> {
    read_file(alloc, open_again(rt, path)?).ok()
}

/// Why a file can't be opened or read.
#[derive(Clone, Copy)]
pub enum FileFailure {
    /// It can't be opened.
    Open(io::ErrorKind),
    /// It is a folder.
    Folder,
    /// It has more octets than it may have: how many it has, and how many it may have.
    TooLong(u64, usize),
}

impl fmt::Display for FileFailure {
    fn fmt<W: fmt::Write>(&self, f: &mut fmt::Formatter<W>) -> fmt::Result {
        match *self {
            FileFailure::Open(io::ErrorKind::NotFound) => f.write_str("no such file or directory"),
            FileFailure::Open(kind) => write!(f, "{kind}"),
            FileFailure::Folder => f.write_str("is a directory"),
            FileFailure::TooLong(length, most) => {
                write!(f, "has {length} octets, and may have {most}")
            }
        }
    }
}

/// Why the file can't be opened or read, if that can be seen from outside. It may have at most so
/// many octets.
pub fn failure_of<F: Files>(rt: &F, path: &str, most: usize) -> Option<FileFailure> {
    match fs::metadata(rt, path) {
        Err(error) => Some(FileFailure::Open(error.kind())),
        Ok(metadata) if metadata.is_dir() => Some(FileFailure::Folder),
        Ok(metadata) if !metadata.is_file() => None,
        Ok(metadata) if metadata.len() > most as u64 => {
            Some(FileFailure::TooLong(metadata.len(), most))
        }
        Ok(_) => match fs::open(rt, path) {
            Ok(_) => None,
            Err(error) => Some(FileFailure::Open(error.kind())),
        },
    }
}

/// Writes why a TOML file can't be opened or read (F5).
pub fn explain_unreadable<F: Files, E: Write>(rt: &F, name: &str, err: &mut E) -> io::Result<()> {
    match failure_of(rt, name, MAX_FILE_LEN) {
        Some(failure) => writeln!(err, "{name}: {failure}"),
        None => writeln!(err, "{name}: {}", FileFault::Unreadable),
    }
}
