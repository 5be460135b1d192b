//! The files of a configuration and of its snapshot.

use crate::reading::argument;
use babel_config::FileFault;
use babel_snapshot_file::{Kept, SnapshotFileFault, StoreStart};
use clap::ArgMatches;
use std::fs::{self, Files};

/// Opens the configuration.
pub fn open_config<F: Files>(rt: &F, arguments: &ArgMatches<'_>) -> Result<F::File, FileFault> {
    Ok(fs::open(rt, argument(arguments, "config"))?)
}

/// Opens the snapshot that the speaker is restored from, if one is named.
pub fn open_snapshot<F: Files>(
    rt: &F,
    arguments: &ArgMatches<'_>,
) -> Result<Option<F::File>, SnapshotFileFault> {
    let Some(path) = arguments.get_str("restore") else {
        return Ok(None);
    };
    match fs::open(rt, path) {
        Ok(snapshot) => Ok(Some(snapshot)),
        Err(error) => Err(SnapshotFileFault::of_reading(error)),
    }
}

/// The file in which the snapshot is kept, if one is named.
pub fn kept<'a>(arguments: &ArgMatches<'a>) -> Option<Kept<'a>> {
    let path = arguments.get_str("keep")?;
    let start = if arguments.get_flag("new") {
        StoreStart::New
    } else {
        StoreStart::Existing
    };
    Some(Kept { path, start })
}
