//! The sentence on the file of a snapshot.

use babel_arguments::{argument, failure_of};
use babel_line_details::LineProblem;
use babel_snapshot_file::{MAX_SNAPSHOT_LEN, SnapshotFileFault};
use babel_state::RestoreFault;
use clap::ArgMatches;
use std::fs::Files;
use std::io::{self, Write};

/// The file that is kept, or else the one of another option.
fn kept_or<'m>(arguments: &'m ArgMatches<'_>, name: &str) -> &'m str {
    match arguments.get_str("keep") {
        Some(kept) => kept,
        None => argument(arguments, name),
    }
}

/// K8, K9, K10 and L8: the file of a snapshot.
pub(crate) fn explain_snapshot_file<F: Files, E: Write>(
    rt: &F,
    arguments: &ArgMatches<'_>,
    fault: SnapshotFileFault,
    err: &mut E,
) -> io::Result<()> {
    let restored = kept_or(arguments, "restore");
    match fault {
        SnapshotFileFault::Unreadable => match failure_of(rt, restored, MAX_SNAPSHOT_LEN) {
            Some(failure) => writeln!(err, "{restored}: {failure}"),
            None => writeln!(err, "{restored}: {fault}"),
        },
        SnapshotFileFault::Unwritable => explain_unwritable(arguments, fault, err),
        SnapshotFileFault::Existing | SnapshotFileFault::InUse => {
            writeln!(err, "{restored}: {fault}")
        }
        SnapshotFileFault::Memory => writeln!(err, "{}", LineProblem::Memory),
    }
}

/// K9 of a file that can't be written.
fn explain_unwritable<E: Write>(
    arguments: &ArgMatches<'_>,
    fault: SnapshotFileFault,
    err: &mut E,
) -> io::Result<()> {
    let name = kept_or(arguments, "save");
    let after = match arguments.get_str("keep") {
        Some(_) => "Nothing was sent",
        None => "The file is as it was",
    };
    writeln!(
        err,
        "{name}: {fault}; look at its folder, permissions and space. {after}"
    )
}

/// K1 to K7: what is in the snapshot.
pub(crate) fn explain_restore<E: Write>(
    arguments: &ArgMatches<'_>,
    fault: RestoreFault,
    err: &mut E,
) -> io::Result<()> {
    let name = kept_or(arguments, "restore");
    let advice = match fault {
        RestoreFault::Config(_) => return writeln!(err, "{}", LineProblem::Memory),
        RestoreFault::TooShort | RestoreFault::Length => "it was cut, or is no snapshot",
        RestoreFault::Beginning => "name the file that speak --keep or --save wrote",
        RestoreFault::RouterId => "restore a speaker from its own snapshot",
        RestoreFault::TooManyRecords | RestoreFault::Record(_) | RestoreFault::Order(_) => {
            "it was altered; use another copy"
        }
    };
    writeln!(err, "{name}: {fault}; {advice}")
}
