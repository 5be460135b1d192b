//! A speaker is restored from a file, and saved to one.

use babel_snapshot_file::{SnapshotFileFault, read_snapshot, replace_file};
use babel_speaker::Speaker;
use babel_state::Config;
use raibenku::SpeakFault;
use std::alloc::Global;
use std::fs::Files;
use std::io::Read;

/// The moment at which a speaker is restored: the first one.
const MOMENT: u64 = 0;

/// A speaker of the configuration. With the file of a snapshot it is restored from that.
///
/// # Errors
///
/// K8, K1 to K7 and C7, by the first cause in this order, if C1 to C6 don't apply.
pub(crate) fn make_speaker<S: Read + Drop>(
    alloc: Global,
    config: Config,
    snapshot: Option<S>,
) -> Result<Speaker, SpeakFault> {
    match snapshot {
        Some(file) => {
            let octets = read_snapshot(alloc, file)?;
            Ok(Speaker::restore(alloc, config, MOMENT, octets.as_slice())?)
        }
        None => Ok(Speaker::new(alloc, config)?),
    }
}

/// Saves the speaker to the file, if one is named.
///
/// # Errors
///
/// K9 if the file can't be written, L8 if an allocation fails.
pub(crate) fn save<F: Files>(
    alloc: Global,
    files: &F,
    speaker: &Speaker,
    path: Option<&str>,
) -> Result<(), SnapshotFileFault> {
    let Some(path) = path else {
        return Ok(());
    };
    match speaker.save() {
        Ok(octets) => replace_file(alloc, files, path, octets.as_slice()),
        Err(_) => Err(SnapshotFileFault::Memory),
    }
}
