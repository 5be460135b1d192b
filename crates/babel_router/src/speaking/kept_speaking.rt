//! `babel speak CONFIG --keep FILE`: a speaker over UDP that may be killed at any moment.

use crate::controlling::{Control, Service, counts_of, device_view, remove_socket};
use crate::counting::Counts;
use crate::keeping::{KeptWire, open_kept};
use crate::limits::{MAX_DATAGRAM_LEN, MAX_FAULTS};
use crate::printing::{PrintedRoutes, Printer};
use crate::selections::NUMBERED;
use crate::speaking::checked_links;
use babel_control::{ControlPlace, DeviceView, Wish};
use babel_snapshot_file::{Kept, LockFile, SnapshotFileFault};
use babel_speaker::Speaker;
use babel_state::Config;
use babel_text::LineFault;
use babel_wire::{DurableDriver, DurableReport, Wire, drive_durable};
use mio::Poll;
use raibenku::{Links, SpeakFault, UdpWire};
use std::alloc::{AllocError, Global};
use std::fs::Files;
use std::io::{LineWriter, Write};
use std::net::Net;
use std::time::Clock;

/// How long a speaker speaks, on which port, what it prints, and where it is kept.
#[derive(Clone, Copy)]
pub struct KeptOptions<'a> {
    /// How many turns it has.
    pub turns: u32,
    /// The UDP port of all speakers (RFC 8966, section 4).
    pub port: u16,
    /// Whether each change of a selected route is printed, and all selected routes at the end.
    pub routes: bool,
    /// The file in which its snapshot is kept. Without it nothing is kept over a restart.
    pub keep: Option<Kept<'a>>,
    /// Where the control socket is. Without it nobody can ask the speaker anything.
    pub control: Option<ControlPlace<'a>>,
}

/// The same as [`crate::speak`], but in each turn the snapshot is kept if it has changed, then
/// changes of routes are written, and then datagrams are sent. So it may be killed at any moment,
/// and start again at once.
///
/// If the snapshot can't be kept in the first turn, the run ends, and nothing was sent. Later
/// nothing is sent until it can be kept again; that is written to `err` once.
///
/// # Errors
///
/// C1 to C6, W1, K10, K8, K9, K1 to K7, C7, W2, W7, by the first cause in this order, before
/// anything is sent. Then K9 of the first turn, L7 and L8.
pub fn speak_kept<R: AllocGlobal + Net + Clock + Files, W: Write, E: Write>(
    rt: &R,
    config: Config,
    options: KeptOptions<'_>,
    out: &mut W,
    err: &mut E,
) -> Result<(), SpeakFault>
where
    R::File: LockFile,
{
    match start(rt, config, options) {
        Ok(mut started) => print_turns(rt, options, &mut started, out, err),
        Err(fault) => Err(fault),
    }
}

/// A speaker that may send, and what it is driven over.
#[derive(Drop)]
struct Started<'a, R: Net + Clock + Files> {
    speaker: Speaker,
    wire: KeptWire<'a, UdpWire<'a, R>, R>,
    counts: Counts,
}

/// Makes or restores the speaker, and its sockets.
fn start<'a, R: AllocGlobal + Net + Clock + Files>(
    rt: &'a R,
    config: Config,
    options: KeptOptions<'a>,
) -> Result<Started<'a, R>, SpeakFault>
where
    R::File: LockFile,
{
    match checked_links(rt.alloc(), &config) {
        Ok(links) => start_over(rt, links, config, options),
        Err(fault) => Err(fault),
    }
}

fn start_over<'a, R: AllocGlobal + Net + Clock + Files>(
    rt: &'a R,
    links: Links,
    config: Config,
    options: KeptOptions<'a>,
) -> Result<Started<'a, R>, SpeakFault>
where
    R::File: LockFile,
{
    let (store, speaker) = match open_kept(rt.alloc(), rt, config, options.keep) {
        Ok(opened) => opened,
        Err(fault) => return Err(SpeakFault::from(fault)),
    };
    match UdpWire::bind(rt.alloc(), rt, links, options.port) {
        Ok(wire) => Ok(Started {
            speaker,
            wire: KeptWire { wire, store },
            counts: Counts::default(),
        }),
        Err(fault) => Err(fault),
    }
}

/// Drives the speaker for all turns, and prints what is asked for.
fn print_turns<R: AllocGlobal + Net + Clock + Files, W: Write, E: Write>(
    rt: &R,
    options: KeptOptions<'_>,
    started: &mut Started<'_, R>,
    out: &mut W,
    err: &mut E,
) -> Result<(), SpeakFault>
where
    R::File: LockFile,
{
    let routes = match options.routes {
        true => Some(NUMBERED),
        false => None,
    };
    let printed = PrintedRoutes {
        commands: None,
        routes,
    };
    // Each line goes out whole, as those of `run`.
    let mut err = match LineWriter::new(rt.alloc(), err) {
        Ok(err) => err,
        Err(error) => return Err(SpeakFault::Output(LineFault::of_writing(error))),
    };
    match Printer::new(rt.alloc(), printed, out, &mut err) {
        Ok(mut printer) => print_over(rt, options, started, &mut printer),
        Err(error) => Err(SpeakFault::from(error)),
    }
}

/// The same, with a printer that has printed nothing. First the control socket is opened, if there
/// is to be one.
fn print_over<R: AllocGlobal + Net + Clock + Files, W: Write, E: Write>(
    rt: &R,
    options: KeptOptions<'_>,
    started: &mut Started<'_, R>,
    printer: &mut Printer<'_, '_, W, E>,
) -> Result<(), SpeakFault>
where
    R::File: LockFile,
{
    let Ok(poll) = Poll::new(rt) else {
        return Err(SpeakFault::Socket);
    };
    if let Some(place) = options.control {
        match Control::open(rt.alloc(), rt, place, poll.registry(), 0) {
            Ok(control) => printer.control = Some(control),
            Err(_) => return Err(SpeakFault::Control),
        }
    }
    let taken = take_turns(rt.alloc(), options.turns, started, &poll, printer);
    remove_socket(rt, options.control);
    taken?;
    Ok(printer.end_if_written(&started.speaker, started.counts)?)
}

/// Drives the speaker turn by turn, until its lines can't be written.
fn take_turns<R: Net + Clock + Files, W: Write, E: Write>(
    alloc: Global,
    turns: u32,
    started: &mut Started<'_, R>,
    poll: &Poll,
    printer: &mut Printer<'_, '_, W, E>,
) -> Result<(), SpeakFault>
where
    R::File: LockFile,
{
    let mut driver = DurableDriver::new(alloc, MAX_DATAGRAM_LEN)?;
    for _ in 0..turns {
        if printer.has_failed() || started.wire.faults() > MAX_FAULTS {
            break;
        }
        let Started { speaker, wire, .. } = &mut *started;
        let turn = drive_durable(speaker, &mut driver, wire, printer, 1);
        if turn.failed_keeps > 0 && started.counts.turns == 0 {
            return Err(SpeakFault::SnapshotFile(SnapshotFileFault::Unwritable));
        }
        started.counts.add(turn);
        printer.note_keeping(turn);
        if serve(alloc, started, turn, poll, printer) == Wish::Stop {
            break;
        }
    }
    Ok(())
}

/// Serves the clients of the control socket, and returns what one wants of the speaker. Their
/// sockets don't wait, so all of them are asked, also those that have sent nothing.
fn serve<R: Net + Clock + Files, W: Write, E: Write>(
    alloc: Global,
    started: &mut Started<'_, R>,
    turn: DurableReport,
    poll: &Poll,
    printer: &mut Printer<'_, '_, W, E>,
) -> Wish {
    let Some(control) = &mut printer.control else {
        return Wish::Nothing;
    };
    // Without memory for them nobody is served in this turn.
    let Ok(devices) = devices_of(alloc, &started.speaker) else {
        return Wish::Nothing;
    };
    let service = Service {
        devices: &devices,
        now: started.wire.now(),
        ready: u64::MAX,
        counts: counts_of(started.counts),
        keeping: started.wire.keeping(turn),
    };
    control.serve(&started.speaker, poll.registry(), service)
}

/// The interfaces, whose names are their numbers.
fn devices_of(alloc: Global, speaker: &Speaker) -> Result<Vec<DeviceView<'static>>, AllocError> {
    let mut devices = Vec::new(alloc);
    for iface in 0..speaker.interface_count() {
        if let (Some(entry), Some(name)) = (
            speaker.interface(iface),
            NUMBERED.names.get(usize::from(iface)),
        ) {
            devices.push(device_view(name, entry.ipv6, entry.ipv4))?;
        }
    }
    Ok(devices)
}
