//! The calls of this crate: a fault becomes a line.

use crate::configs::{config_problem, ipv6_transport};
use crate::events::{EventFault, found_event, refused_event};
use crate::findings::Finding;
use crate::locations::Owner;
use crate::networks::network_problem;
use crate::schema::Schema;
use crate::toml_places::{FileText, Position};
use crate::warnings::write_config_warnings;
use babel_config::{FileFault, read_config, read_scenario};
use babel_machine::{NetFault, StepFault};
use babel_net::HearFault;
use babel_state::ConfigFault;
use std::alloc::Global;
use std::fmt;
use std::io::{self, Write};
use toml::Value;

/// What a file is for.
#[derive(Clone, Copy)]
pub enum FileKind {
    /// The configuration of a speaker.
    Config,
    /// The nodes and the events of a network.
    Scenario,
}

/// Writes why a file is refused: F1 to F3 and F6, and F4. If the cause isn't found, the sentence
/// is that of the code.
pub fn explain_file<W: Write>(
    alloc: Global,
    file: FileText<'_>,
    kind: FileKind,
    fault: FileFault,
    out: &mut W,
) -> io::Result<()> {
    let schema = Schema {
        bad_event: event_of(fault),
        alloc,
    };
    match toml::table_from_slice(alloc, file.octets) {
        Ok(table) => {
            let table = Value::Table(table);
            write_found(alloc, file, schema.file_problem(kind, &table), &fault, out)
        }
        Err(error) => write_syntax_error(file, &error, &fault, out),
    }
}

/// Writes why the text of a file is no TOML. `fault` has the sentence if nothing is known of the
/// place.
pub(crate) fn write_syntax_error<F: fmt::Display, W: Write>(
    file: FileText<'_>,
    error: &toml::de::Error,
    fault: &F,
    out: &mut W,
) -> io::Result<()> {
    match error.span() {
        Some(span) => {
            write_place(
                file.name,
                Some(Position::after(file.octets, span.start)),
                out,
            )?;
            writeln!(out, "{}", error.message())
        }
        None => writeln!(out, "{}: {fault}", file.name),
    }
}

/// Writes the name of a file before a sentence, and the position if it is found.
pub(crate) fn write_place<W: Write>(
    name: &str,
    position: Option<Position>,
    out: &mut W,
) -> io::Result<()> {
    match position {
        Some(position) => write!(out, "{name}:{position}: "),
        None => write!(out, "{name}: "),
    }
}

/// The event of a fault F6.
fn event_of(fault: FileFault) -> Option<usize> {
    match fault {
        FileFault::Event(number) => Some(number),
        _ => None,
    }
}

/// Writes why no speaker can be made of the configuration in a file: C1 to C7.
pub fn explain_config<W: Write>(
    alloc: Global,
    file: FileText<'_>,
    fault: ConfigFault,
    out: &mut W,
) -> io::Result<()> {
    let found = match read_config(alloc, file.octets) {
        Ok(config) => config_problem(Owner::FILE, &config, fault),
        Err(_) => None,
    };
    write_found(alloc, file, found, &fault, out)
}

/// Writes which interface of the configuration in a file has IPv6 transport: W1.
pub fn explain_transport<W: Write>(
    alloc: Global,
    file: FileText<'_>,
    out: &mut W,
) -> io::Result<()> {
    let found = match read_config(alloc, file.octets) {
        Ok(config) => ipv6_transport(&config),
        Err(_) => None,
    };
    write_found(alloc, file, found, &"an interface has IPv6 transport", out)
}

/// Writes why no network can be made of the configurations in the file of a scenario: M1 to M7.
pub fn explain_network<W: Write>(
    alloc: Global,
    file: FileText<'_>,
    fault: NetFault,
    out: &mut W,
) -> io::Result<()> {
    let found = match read_scenario(alloc, file.octets) {
        Ok(scenario) => network_problem(scenario.configs.as_slice(), fault),
        Err(_) => None,
    };
    write_found(alloc, file, found, &fault, out)
}

/// Writes why an event of a scenario's nodes is refused: N1 to N7.
pub fn explain_event<W: Write>(
    alloc: Global,
    file: FileText<'_>,
    number: usize,
    fault: StepFault,
    out: &mut W,
) -> io::Result<()> {
    explain_event_fault(alloc, file, EventFault::Ours(number, fault), out)
}

/// Writes why a node of a scenario doesn't hear the datagram of an event: N8, N1, N3 or N6.
pub fn explain_hearing<W: Write>(
    alloc: Global,
    file: FileText<'_>,
    number: usize,
    fault: HearFault,
    out: &mut W,
) -> io::Result<()> {
    explain_event_fault(alloc, file, EventFault::Heard(number, fault), out)
}

fn explain_event_fault<W: Write>(
    alloc: Global,
    file: FileText<'_>,
    fault: EventFault,
    out: &mut W,
) -> io::Result<()> {
    let Some(problem) = refused_event(alloc, file.octets, fault) else {
        return write_found(alloc, file, None, &fault, out);
    };
    match toml::table_from_slice(alloc, file.octets) {
        Ok(table) => write_found(
            alloc,
            file,
            found_event(&table, fault, problem),
            &fault,
            out,
        ),
        Err(_) => write_found(alloc, file, None, &fault, out),
    }
}

/// Writes a line for each thing of a configuration that can't work, though a speaker can be made
/// of it.
pub fn write_warnings<W: Write>(alloc: Global, file: FileText<'_>, out: &mut W) -> io::Result<()> {
    match read_config(alloc, file.octets) {
        Ok(config) => write_config_warnings(alloc, file, &config, out),
        Err(_) => Ok(()),
    }
}

/// Writes the cause of a fault, or the sentence of its code if the cause isn't found.
fn write_found<F: fmt::Display, W: Write>(
    alloc: Global,
    file: FileText<'_>,
    found: Option<Finding<'_>>,
    fault: &F,
    out: &mut W,
) -> io::Result<()> {
    match found {
        Some(finding) => {
            write_place(file.name, finding.at.position(alloc, file.octets), out)?;
            writeln!(out, "{finding}")
        }
        None => writeln!(out, "{}: {fault}", file.name),
    }
}
