//! The files that `simulate` writes, and the options that name them.

use crate::refusals::Refused;
use babel_snapshot_file::{SnapshotFileFault, replace_file};
use clap::ArgMatches;
use std::fs::Files;

/// An option that names a file to be written.
#[derive(Clone, Copy)]
pub(crate) enum Target {
    /// The events as a scenario.
    Scenario,
    /// The picture.
    Svg,
    /// The network for Graphviz.
    Dot,
}

impl Target {
    /// The name of the option, without dashes.
    pub(crate) fn name(self) -> &'static str {
        match self {
            Target::Scenario => "scenario",
            Target::Svg => "svg",
            Target::Dot => "dot",
        }
    }

    /// The code of a file that can't be written.
    pub(crate) fn code(self) -> &'static str {
        match self {
            Target::Scenario => "T21",
            Target::Svg | Target::Dot => "T23",
        }
    }

    /// Why its file was not written.
    fn refused(self, fault: SnapshotFileFault) -> Refused {
        match fault {
            SnapshotFileFault::Memory => Refused::Memory,
            _ => Refused::Unwritable(self),
        }
    }
}

/// An argument that names a file which an option may not name, too.
#[derive(Clone, Copy)]
pub(crate) enum Other {
    /// The file of the topology.
    Topology,
    /// That of `--scenario`.
    Scenario,
    /// That of `--svg`.
    Svg,
}

impl Other {
    /// The name of the argument, without dashes.
    fn name(self) -> &'static str {
        match self {
            Other::Topology => "topology",
            Other::Scenario => "scenario",
            Other::Svg => "svg",
        }
    }

    /// The argument as the usage shows it.
    pub(crate) fn shown(self) -> &'static str {
        match self {
            Other::Topology => "TOPOLOGY",
            Other::Scenario => "--scenario",
            Other::Svg => "--svg",
        }
    }
}

/// Writes the file of an option, whole or not at all.
pub(crate) fn keep_target<F: AllocGlobal + Files>(
    rt: &F,
    target: Target,
    path: &str,
    octets: &[u8],
) -> Result<(), Refused> {
    match replace_file(rt.alloc(), rt, path, octets) {
        Ok(()) => Ok(()),
        Err(fault) => Err(target.refused(fault)),
    }
}

/// Refuses a file to be written that another argument names too: it would be replaced.
pub(crate) fn test_targets(arguments: &ArgMatches<'_>) -> Result<(), Refused> {
    let others = [Other::Topology, Other::Scenario, Other::Svg];
    test_target(arguments, Target::Scenario, &others[..1])?;
    test_target(arguments, Target::Svg, &others[..2])?;
    test_target(arguments, Target::Dot, &others)
}

fn test_target(
    arguments: &ArgMatches<'_>,
    target: Target,
    others: &[Other],
) -> Result<(), Refused> {
    let Some(path) = path_of(arguments, target.name()) else {
        return Ok(());
    };
    for other in others {
        if path_of(arguments, other.name()) == Some(path) {
            return Err(Refused::Shared(target, *other));
        }
    }
    Ok(())
}

/// The path that an argument names. `./` before it makes no other path of it.
fn path_of<'m>(arguments: &'m ArgMatches<'_>, name: &str) -> Option<&'m str> {
    let path = arguments.get_str(name)?;
    Some(path.strip_prefix("./").unwrap_or(path))
}
