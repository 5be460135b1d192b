//! Why a prefix has no route after a log.

use crate::reporting::sightings::{Sighting, sighting_in};
use crate::showing::{READ_LEN, read_line};
use babel_message::Reason;
use babel_packet::decode;
use babel_replay::{Action, MAX_LINE_LEN, parse_line};
use babel_text::LineFault;
use babel_value::{Addr, Prefix};
use std::alloc::Global;
use std::io::{BufRead, BufReader, Read};

/// Why a prefix has no route after a log. Lines count from 1.
#[derive(Clone, Copy)]
pub enum Absence {
    /// No Update names it.
    NeverNamed,
    /// Only Updates that are ignored name it: the first one's line and reason, and their number.
    OnlyIgnored(u64, Reason, u64),
    /// It was retracted and never advertised: the line of the last retraction.
    OnlyRetracted(u64),
    /// It was advertised, and no route is left: the line of the last Update.
    NoRouteLeft(u64),
}

/// What the lines so far have of a prefix.
#[derive(Clone, Copy)]
struct Record {
    last_update: Option<u64>,
    last_retraction: Option<u64>,
    first_ignored: Option<(u64, Reason)>,
    ignored: u64,
}

impl Record {
    fn take(&mut self, number: u64, sighting: Sighting) {
        match sighting {
            Sighting::Update => self.last_update = Some(number),
            Sighting::Retraction => self.last_retraction = Some(number),
            Sighting::Ignored(reason) => {
                self.ignored = self.ignored.saturating_add(1);
                if self.first_ignored.is_none() {
                    self.first_ignored = Some((number, reason));
                }
            }
        }
    }

    fn absence(&self) -> Absence {
        match (self.last_update, self.last_retraction, self.first_ignored) {
            (Some(line), _, _) => Absence::NoRouteLeft(line),
            (None, Some(line), _) => Absence::OnlyRetracted(line),
            (None, None, Some((line, reason))) => {
                Absence::OnlyIgnored(line, reason, self.ignored)
            }
            (None, None, None) => Absence::NeverNamed,
        }
    }
}

/// Looks through a log for the prefix. It was explained earlier, so its lines can be read.
///
/// # Errors
///
/// The fault of the first line that can't be read.
pub fn absence_of<L: Read + Drop>(
    alloc: Global,
    log: L,
    prefix: &Prefix,
) -> Result<Absence, LineFault> {
    let mut log = BufReader::with_capacity(alloc, READ_LEN, log).map_err(LineFault::of_reading)?;
    let mut octets = vec![in alloc; 0u8; MAX_LINE_LEN / 2]?;
    let record = record_of(alloc, &mut log, octets.as_mut_slice(), prefix)?;
    Ok(record.absence())
}

fn record_of<L: BufRead>(
    alloc: Global,
    log: &mut L,
    octets: &mut [u8],
    prefix: &Prefix,
) -> Result<Record, LineFault> {
    let mut record = Record {
        last_update: None,
        last_retraction: None,
        first_ignored: None,
        ignored: 0,
    };
    let mut line = Vec::new(alloc);
    for number in 1..u64::MAX {
        if !read_line(log, &mut line)? {
            break;
        }
        if line.is_empty() || line.starts_with(b"#") {
            continue;
        }
        let event = parse_line(line.as_slice(), octets)?;
        if let Action::Receive { source, octets, .. } = event.action {
            take_datagram(alloc, &mut record, (number, source, octets), prefix);
        }
    }
    Ok(record)
}

/// Takes what the datagram of a line, from a source, has of the prefix. One that is refused has
/// nothing.
fn take_datagram(
    alloc: Global,
    record: &mut Record,
    received: (u64, Addr, &[u8]),
    prefix: &Prefix,
) {
    let (number, source, octets) = received;
    if let Ok(places) = decode(alloc, octets, source) {
        for place in places.iter() {
            if let Some(sighting) = sighting_in(place, octets, prefix) {
                record.take(number, sighting);
            }
        }
    }
}
