//! Why the command `simulate` is refused, as a code and as a sentence.

use crate::targets::{Other, Target};
use babel_arguments::{argument, explain_unreadable, octets_of};
use babel_file_details::{FileText, explain_topology};
use babel_line_details::Excerpt;
use babel_machine::NetFault;
use babel_simulate::SimulationFault;
use babel_state::ConfigFault;
use babel_topology::file::read_topology;
use babel_topology::{Topology, TopologyFault};
use clap::ArgMatches;
use std::alloc::AllocError;
use std::fmt;
use std::fs::Files;
use std::io::{self, Write};

/// Why a simulation is refused. The text is the code, with the number that belongs to it.
#[derive(Clone, Copy)]
pub(crate) enum Refused {
    /// F3: the prefix can't be read.
    Prefix,
    /// T1 to T19: the file has no topology.
    Topology(TopologyFault),
    /// M1 to M7: no network can be made of the nodes.
    Net(NetFault),
    /// T20: the run would take more memory than it may. The moment at which it ended, in
    /// centiseconds.
    Limit(u64),
    /// T21, T23: the file of an option can't be written.
    Unwritable(Target),
    /// T21, T23: the file of an option is that of another argument too, which is named.
    Shared(Target, Other),
    /// T22: the moment of `--at` can't be read.
    Moment,
    /// L7: the output can't be written.
    Output,
    /// L8: an allocation failed.
    Memory,
}

impl Refused {
    /// The fault of a run that ended at the moment, in centiseconds.
    pub(crate) fn at(fault: SimulationFault, moment: u64) -> Refused {
        match fault {
            SimulationFault::Net(NetFault::Memory) => Refused::Memory,
            SimulationFault::Net(fault) => Refused::Net(fault),
            SimulationFault::Limit => Refused::Limit(moment),
            SimulationFault::Step(_) | SimulationFault::Memory => Refused::Memory,
        }
    }
}

impl fmt::Display for Refused {
    fn fmt<W: fmt::Write>(&self, f: &mut fmt::Formatter<W>) -> fmt::Result {
        match *self {
            Refused::Prefix => f.write_str("F3"),
            Refused::Topology(fault) => write!(f, "{}", fault.code()),
            Refused::Net(NetFault::BadConfig { node, fault }) => {
                write!(f, "M7 {node} {}", fault.code())
            }
            Refused::Net(fault) => f.write_str(fault.code()),
            Refused::Limit(_) => f.write_str("T20"),
            Refused::Unwritable(target) | Refused::Shared(target, _) => f.write_str(target.code()),
            Refused::Moment => f.write_str("T22"),
            Refused::Output => f.write_str("L7"),
            Refused::Memory => f.write_str("L8"),
        }
    }
}

impl From<TopologyFault> for Refused {
    fn from(fault: TopologyFault) -> Refused {
        Refused::Topology(fault)
    }
}

impl From<AllocError> for Refused {
    fn from(_error: AllocError) -> Refused {
        Refused::Memory
    }
}

impl From<io::Error> for Refused {
    fn from(error: io::Error) -> Refused {
        match error.kind() {
            io::ErrorKind::OutOfMemory => Refused::Memory,
            _ => Refused::Output,
        }
    }
}

/// Writes what is wrong, and where.
pub(crate) fn explain<F: AllocGlobal + Files, E: Write>(
    rt: &F,
    arguments: &ArgMatches<'_>,
    refused: Refused,
    err: &mut E,
) -> io::Result<()> {
    let name = argument(arguments, "topology");
    match refused {
        Refused::Topology(fault) => explain_file(rt, name, fault, err),
        Refused::Net(fault) => explain_network(rt, name, fault, err),
        Refused::Limit(at) => writeln!(
            err,
            "{name}: at {} s the datagrams that were sent take more memory than --memory allows; \
             allow more, or run it for fewer --seconds",
            at / 100
        ),
        Refused::Prefix => writeln!(
            err,
            "--prefix {} is not a prefix, as 10.0.0.0/8 or 2001:db8::/32",
            Excerpt(argument(arguments, "prefix"))
        ),
        Refused::Unwritable(target) => writeln!(
            err,
            "--{} {}: the file can't be written; look at its folder, permissions and space",
            target.name(),
            Excerpt(argument(arguments, target.name()))
        ),
        Refused::Shared(target, other) => writeln!(
            err,
            "--{} {}: the file is that of {} too; name another one",
            target.name(),
            Excerpt(argument(arguments, target.name())),
            other.shown()
        ),
        Refused::Moment => writeln!(
            err,
            "--at {} is not a time; write a number up to 65535, a blank and ms, s or min, \
             as \"60 s\"",
            Excerpt(argument(arguments, "at"))
        ),
        Refused::Output => writeln!(err, "the output can't be written"),
        Refused::Memory => writeln!(err, "out of memory"),
    }
}

/// T1 to T19: what is wrong with the file of the topology.
fn explain_file<F: AllocGlobal + Files, E: Write>(
    rt: &F,
    name: &str,
    fault: TopologyFault,
    err: &mut E,
) -> io::Result<()> {
    if let TopologyFault::Unreadable = fault {
        return explain_unreadable(rt, name, err);
    }
    match octets_of(rt.alloc(), rt, name) {
        Some(octets) => {
            let octets = octets.as_slice();
            explain_topology(rt.alloc(), FileText { name, octets }, fault, err)
        }
        None => writeln!(err, "{name}: {fault}"),
    }
}

/// M1 to M7: why no network can be made of the nodes.
fn explain_network<F: AllocGlobal + Files, E: Write>(
    rt: &F,
    name: &str,
    fault: NetFault,
    err: &mut E,
) -> io::Result<()> {
    match fault {
        NetFault::TooManyNodes => writeln!(
            err,
            "{name}: a network has at most 64 speakers: one for each node, and one more for each \
             restart of a node that begins again with nothing; use fewer nodes"
        ),
        NetFault::BadConfig {
            node,
            fault: ConfigFault::Prefixes,
        } => explain_prefixes(rt, name, node, err),
        fault => writeln!(err, "{name}: {fault}"),
    }
}

/// M7 with C5. No prefix is listed twice: the simulation leaves a second one out.
fn explain_prefixes<F: AllocGlobal + Files, E: Write>(
    rt: &F,
    name: &str,
    number: usize,
    err: &mut E,
) -> io::Result<()> {
    write!(err, "{name}: node {number}")?;
    if let Some(topology) = topology_again(rt, name) {
        if let Some(node) = topology.nodes.get(number) {
            write!(err, ", {},", Excerpt(&node.name))?;
        }
    }
    writeln!(
        err,
        " has more than 64 prefixes; those of its announce steps count too"
    )
}

/// The topology in the file, if that can be read again.
fn topology_again<F: AllocGlobal + Files>(rt: &F, name: &str) -> Option<Topology> {
    let octets = octets_of(rt.alloc(), rt, name)?;
    read_topology(rt.alloc(), octets.as_slice()).ok()
}
