//! The command `simulate`: a network of named nodes runs, and what became of its routes.

use crate::pictures::{moment_of, write_pictures};
use crate::progress::Sight;
use crate::refusals::{Refused, explain};
use crate::targets::{Target, keep_target, test_targets};
use babel_arguments::{NotingWriter, argument, explain_output, wants_details};
use babel_commands::{Status, refuse};
use babel_config::{FileFault, read_file};
use babel_outcome::{Outcome, Shown, is_as_expected, write_objects, write_text};
use babel_simulate::{KeptEvents, Options, Progress, Simulation, configs, write_scenario};
use babel_text::parse_prefix;
use babel_topology::file::read_topology;
use babel_topology::{Topology, TopologyFault};
use babel_value::Prefix;
use clap::ArgMatches;
use std::alloc::Global;
use std::fs::{self, Files};
use std::io::{BufWriter, IsTerminal, Write};
use std::time::Clock;

/// How many MB of memory a run may take if nothing else is asked for.
const DEFAULT_MEMORY: u64 = 1024;

/// How many octets an MB has.
const MB: u64 = 1_000_000;

/// After how many entries of the run the clock is looked at.
const LOOK_AFTER: u64 = 1024;

/// Runs the network, and writes what became of it. Its fault is written.
pub fn run_simulate<F: AllocGlobal + Files + Clock, W: Write + Drop, E: Write + IsTerminal>(
    rt: &F,
    arguments: &ArgMatches<'_>,
    out: &mut BufWriter<NotingWriter<W>>,
    err: &mut E,
) -> Status {
    let refused = match simulate(rt, arguments, out, err) {
        Ok(status) => return status,
        Err(refused) => refused,
    };
    let status = refuse(&refused, err);
    if wants_details(arguments, err) {
        // If writing the sentence fails, the status still reports the fault.
        let _ = match (refused, out.get_ref().failure()) {
            (Refused::Output, Some(failure)) => explain_output(failure, err),
            _ => explain(rt, arguments, refused, err),
        };
    }
    status
}

fn simulate<F: AllocGlobal + Files + Clock, W: Write, E: Write + IsTerminal>(
    rt: &F,
    arguments: &ArgMatches<'_>,
    out: &mut W,
    err: &mut E,
) -> Result<Status, Refused> {
    let prefix = prefix_of(arguments)?;
    let at = moment_of(arguments)?;
    test_targets(arguments)?;
    let topology = topology_of(rt, arguments)?;
    let options = options_of(arguments, &topology);
    let outcome = run(rt, arguments, &topology, options, err)?;
    let shown = Shown {
        topology: &topology,
        outcome: &outcome,
        seed: options.seed,
        prefix,
    };
    show(rt, arguments, &shown, at, out)
}

/// Writes what became of the network, and then the pictures as they were at the moment. So what is
/// known of the run isn't lost if a picture can't be written.
fn show<F: AllocGlobal + Files, W: Write>(
    rt: &F,
    arguments: &ArgMatches<'_>,
    shown: &Shown<'_>,
    at: u64,
    out: &mut W,
) -> Result<Status, Refused> {
    write_outcome(rt.alloc(), arguments, shown, out)?;
    write_pictures(rt, arguments, shown, at)?;
    if is_as_expected(shown) {
        Ok(Status::Done)
    } else {
        Ok(Status::Refused)
    }
}

fn prefix_of(arguments: &ArgMatches<'_>) -> Result<Option<Prefix>, Refused> {
    let Some(text) = arguments.get_str("prefix") else {
        return Ok(None);
    };
    match parse_prefix(text) {
        Some(prefix) => Ok(Some(prefix)),
        None => Err(Refused::Prefix),
    }
}

fn topology_of<F: AllocGlobal + Files>(
    rt: &F,
    arguments: &ArgMatches<'_>,
) -> Result<Topology, Refused> {
    let octets = read_octets(rt, argument(arguments, "topology"))?;
    match read_topology(rt.alloc(), octets.as_slice()) {
        Ok(topology) => Ok(topology),
        Err(fault) => Err(Refused::Topology(fault)),
    }
}

fn read_octets<F: AllocGlobal + Files>(rt: &F, path: &str) -> Result<Vec<u8>, Refused> {
    let Ok(file) = fs::open(rt, path) else {
        return Err(Refused::Topology(TopologyFault::Unreadable));
    };
    match read_file(rt.alloc(), file) {
        Ok(octets) => Ok(octets),
        Err(FileFault::Memory) => Err(Refused::Memory),
        Err(_) => Err(Refused::Topology(TopologyFault::Unreadable)),
    }
}

fn options_of(arguments: &ArgMatches<'_>, topology: &Topology) -> Options {
    let duration = match arguments.get_one::<u64>("seconds") {
        Some(seconds) => seconds.saturating_mul(100),
        None => topology.duration,
    };
    let events = match arguments.get_str("scenario") {
        Some(_) => KeptEvents::Kept,
        None => KeptEvents::Counted,
    };
    let memory = arguments.get_one::<u64>("memory").unwrap_or(DEFAULT_MEMORY);
    Options {
        seed: arguments.get_one::<u64>("seed").unwrap_or(topology.seed),
        duration,
        repeated: percent_of(arguments, "repeated"),
        late: percent_of(arguments, "late"),
        memory: memory.saturating_mul(MB),
        events,
    }
}

fn percent_of(arguments: &ArgMatches<'_>, name: &str) -> u16 {
    let percent = arguments.get_one::<u64>(name).unwrap_or(0);
    u16::try_from(percent).unwrap_or(100)
}

/// Runs the network to its end, and writes its events to a file if that is asked for.
fn run<F: AllocGlobal + Files + Clock, E: Write + IsTerminal>(
    rt: &F,
    arguments: &ArgMatches<'_>,
    topology: &Topology,
    options: Options,
    err: &mut E,
) -> Result<Outcome, Refused> {
    let mut simulation = match Simulation::new(rt.alloc(), topology, options) {
        Ok(simulation) => simulation,
        Err(fault) => return Err(Refused::at(fault, 0)),
    };
    let mut sight = Sight::new(rt, arguments, err);
    let ended = run_to_end(rt, &mut simulation, options.duration, &mut sight, err);
    // A refusal is no part of the line.
    sight.end(err);
    ended?;
    if let Some(path) = arguments.get_str("scenario") {
        keep_scenario(rt, path, topology, &simulation)?;
    }
    match simulation.finish() {
        Ok(outcome) => Ok(outcome),
        Err(fault) => Err(Refused::at(fault, options.duration)),
    }
}

fn run_to_end<F: Clock, E: Write>(
    rt: &F,
    simulation: &mut Simulation<'_>,
    duration: u64,
    sight: &mut Sight,
    err: &mut E,
) -> Result<(), Refused> {
    for count in 0..u64::MAX {
        match simulation.advance() {
            Ok(Progress::At(now)) => {
                if count % LOOK_AFTER == 0 {
                    sight.look(rt, now, duration, err);
                }
            }
            Ok(Progress::Ended) => break,
            Err(fault) => return Err(Refused::at(fault, simulation.now())),
        }
    }
    Ok(())
}

/// Writes the file of the scenario, whole or not at all.
fn keep_scenario<F: AllocGlobal + Files>(
    rt: &F,
    path: &str,
    topology: &Topology,
    simulation: &Simulation<'_>,
) -> Result<(), Refused> {
    let mut octets = Vec::new(rt.alloc());
    write_events(rt.alloc(), topology, simulation, &mut octets)?;
    keep_target(rt, Target::Scenario, path, octets.as_slice())
}

fn write_events(
    alloc: Global,
    topology: &Topology,
    simulation: &Simulation<'_>,
    octets: &mut Vec<u8>,
) -> Result<(), Refused> {
    let Ok(configs) = configs(alloc, topology) else {
        return Err(Refused::Memory);
    };
    match write_scenario(configs.as_slice(), simulation.events(), octets) {
        Ok(()) => Ok(()),
        Err(error) => Err(Refused::from(error)),
    }
}

fn write_outcome<W: Write>(
    alloc: Global,
    arguments: &ArgMatches<'_>,
    shown: &Shown<'_>,
    out: &mut W,
) -> Result<(), Refused> {
    if arguments.get_flag("json") {
        write_objects(alloc, shown, out)?;
    } else {
        write_text(alloc, shown, out)?;
    }
    out.flush()?;
    Ok(())
}
