//! `babel speak CONFIG`: a speaker over UDP and IPv4, which may be saved at its end.
//!
//! - `kept_speaking`: the same with a snapshot that is kept all the time.
//! - `snapshots`: how a speaker is restored and saved.

ghost use Rattle.std.specs.Prelude.{◌≡◌};

mod kept_speaking;
mod snapshots;

use crate::counting::Counts;
use crate::limits::MAX_DATAGRAM_LEN;
use crate::selections::{NUMBERED, Selections};
use crate::speaking::snapshots::{make_speaker, save};
use babel_speaker::Speaker;
use babel_state::Config;
use babel_text::LineFault;
use babel_wire::{DurableReport, Report, drive};
pub use kept_speaking::{KeptOptions, speak_kept};
use raibenku::{Links, SpeakFault, UdpWire};
use std::alloc::Global;
use std::fs::Files;
use std::io::{Read, Write};
use std::net::Net;
use std::time::Clock;

/// How long a speaker speaks, on which port, what it prints, and where it is saved.
#[derive(Clone, Copy)]
pub struct SpeakOptions<'a> {
    /// How many turns it has.
    pub turns: u32,
    /// The UDP port of all speakers (RFC 8966, section 4).
    pub port: u16,
    /// Whether each change of a selected route is printed, and all selected routes at the end.
    pub routes: bool,
    /// The file to which the speaker is saved after the last turn, if any.
    pub save: Option<&'a str>,
}

/// Runs a speaker of the configuration over UDP, one socket for each interface. With the file of a
/// snapshot the speaker is restored from it. At the end a line with the counts is written.
///
/// The speaker is saved after its last turn, also if writing to `out` failed and it was the last
/// one for that reason. So nothing is sent after the save.
///
/// # Errors
///
/// C1 to C6, W1, K8, K1 to K7, C7, W2, by the first cause in this order, before anything is sent.
/// Then K9, L7 and L8.
pub fn speak<R: AllocGlobal + Net + Clock + Files, S: Read + Drop, W: Write>(
    rt: &R,
    config: Config,
    snapshot: Option<S>,
    options: SpeakOptions<'_>,
    out: &mut W,
) -> Result<(), SpeakFault> {
    let links = checked_links(rt.alloc(), &config)?;
    match make_speaker(rt.alloc(), config, snapshot) {
        Ok(mut speaker) => speak_over(rt, links, &mut speaker, options, out),
        Err(fault) => Err(fault),
    }
}

fn speak_over<R: AllocGlobal + Net + Clock + Files, W: Write>(
    rt: &R,
    links: Links,
    speaker: &mut Speaker,
    options: SpeakOptions<'_>,
    out: &mut W,
) -> Result<(), SpeakFault> {
    let mut wire = UdpWire::bind(rt.alloc(), rt, links, options.port)?;
    speak_and_save(rt, speaker, &mut wire, options, out)
}

/// The links of a configuration that a speaker can be made of, if they all have IPv4 transport.
pub(crate) fn checked_links(alloc: Global, config: &Config) -> Result<Links, SpeakFault> {
    config.check()?;
    let links = Links::of(alloc, config)?;
    if links.have_addresses() {
        Ok(links)
    } else {
        Err(SpeakFault::Transport)
    }
}

/// Drives the speaker for all turns, saves it, and writes the counts.
fn speak_and_save<R: AllocGlobal + Net + Clock + Files, W: Write>(
    rt: &R,
    speaker: &mut Speaker,
    wire: &mut UdpWire<'_, R>,
    options: SpeakOptions<'_>,
    out: &mut W,
) -> Result<(), SpeakFault>
    requires { wire.old.faults ≡ 0 }
{
    let report = take_turns(rt.alloc(), speaker, wire, options, out);
    let saved = save(rt.alloc(), rt, speaker, options.save);
    // The counts are written also if the speaker can't be saved.
    let written = match report {
        Ok(report) => counts_of(options, report).write_to(out),
        Err(fault) => Err(fault),
    };
    saved?;
    Ok(written?)
}

/// The counts of all turns.
fn counts_of(options: SpeakOptions<'_>, report: Report) -> Counts {
    Counts {
        turns: u64::from(options.turns),
        report: DurableReport {
            report,
            ..DurableReport::default()
        },
    }
}

/// Drives the speaker for all turns.
fn take_turns<R: Net + Clock, W: Write>(
    alloc: Global,
    speaker: &mut Speaker,
    wire: &mut UdpWire<'_, R>,
    options: SpeakOptions<'_>,
    out: &mut W,
) -> Result<Report, LineFault>
    requires { wire.old.faults ≡ 0 }
{
    if options.routes {
        return speak_with_routes(alloc, speaker, wire, options.turns, out);
    }
    let mut buf = vec![in alloc; 0u8; MAX_DATAGRAM_LEN]?;
    Ok(drive(speaker, wire, &mut buf, options.turns))
}

/// Drives the speaker turn by turn. After each one the changes of the selected routes are written,
/// and at the end all of them.
fn speak_with_routes<R: Net + Clock, W: Write>(
    alloc: Global,
    speaker: &mut Speaker,
    wire: &mut UdpWire<'_, R>,
    turns: u32,
    out: &mut W,
) -> Result<Report, LineFault>
    requires { wire.old.faults ≡ 0 }
{
    let mut buf = vec![in alloc; 0u8; MAX_DATAGRAM_LEN]?;
    let mut selections = Selections::new(alloc, NUMBERED)?;
    let mut report = Report::default();
    for _ in 0..turns {
        let turn = drive(speaker, wire, &mut buf, 1);
        report.received += turn.received;
        report.sent += turn.sent;
        report.refused += turn.refused;
        report.faults += turn.faults;
        selections.write_changes(speaker, wire.moment(), out)?;
    }
    match selections.write_table(speaker, out) {
        Ok(()) => Ok(report),
        Err(error) => Err(LineFault::of_writing(error)),
    }
}
