//! `babel run DEVICE..`: a speaker on real links.

use crate::RunFault;
use crate::controlling::{Control, remove_socket};
use crate::counting::Counts;
use crate::keeping::{KeptWire, open_kept};
use crate::limits::MAX_DATAGRAM_LEN;
use crate::pacing::Pace;
use crate::printing::{PrintedRoutes, Printer};
use crate::selections::{RouteForm, RouteLines};
use crate::turns::Router;
use babel_control::ControlPlace;
use babel_devices::{
    DeviceFault, DeviceSettings, FIRST_OTHER, LinkWire, Lists, Settings, Tracked, config_of,
};
use babel_snapshot_file::{Kept, LockFile, SnapshotStore};
use babel_speaker::Speaker;
use babel_state::Config;
use babel_text::LineFault;
use babel_wire::{DurableDriver, DurableReport};
use std::alloc::{AllocError, Global};
use std::fs::Files;
use std::io::{LineWriter, Read, Write};
use std::net::Net;
use std::os::fd::AsRawFd;
use std::time::{Clock, Duration};

/// How long a device may keep a tentative address, in tenths of a second.
const MAX_TENTATIVE: u32 = 50;

/// Whether something is printed.
#[derive(Clone, Copy)]
pub enum Printed {
    /// It is.
    Yes,
    /// It isn't.
    No,
}

/// On which devices a speaker runs, as what, for how long, and what it prints.
#[derive(Clone, Copy)]
pub struct RunOptions<'a> {
    /// The names of the devices, by the numbers of the interfaces.
    pub names: &'a [&'a str],
    /// The devices, in the same order.
    pub devices: &'a [DeviceSettings<'a>],
    /// What is the same for all devices.
    pub settings: Settings<'a>,
    /// The UDP port of all speakers (RFC 8966, section 4).
    pub port: u16,
    /// After how many turns it ends.
    pub turns: u64,
    /// Where the snapshot is kept before anything is sent. Without it nothing is kept over a
    /// restart.
    pub keep: Option<Kept<'a>>,
    /// Where the control socket is. Without it nobody can ask the speaker anything.
    pub control: Option<ControlPlace<'a>>,
    /// Each change of a selected route, and all of them at the end.
    pub routes: Printed,
    /// Each change of a selected route, as a command for `ip -force -batch -`.
    pub commands: Printed,
}

/// Runs a speaker on the devices until the input ends, and writes what was counted. With commands
/// for `ip` the output has these alone, and all else is written to the standard error.
///
/// In each turn the snapshot is kept if it has changed, then changes of routes are written, and
/// then datagrams are sent. If the snapshot can't be kept in the first turn the run ends, and
/// nothing was sent. Later nothing is sent until it can be kept again; that is written to the
/// standard error once. For a short time after datagrams were sent a turn only takes in what comes,
/// unless something is due.
///
/// A device that has no address yet is used as soon as it has one, if another one can be used.
///
/// # Errors
///
/// W6, W5 for the first device that isn't a member of the group, W3 or W4 for the first one
/// without an address if none has one or if the router-id is to be that of the first, C1 to C7,
/// K10, K8, K9, K1 to K7, W2 and W7, before anything is sent. Then K9, L7 and L8, and C1 to C7 if a
/// device gets another address.
pub fn run<R: AllocGlobal + Net + Clock + Files, I: Read + AsRawFd, W: Write, E: Write>(
    rt: &R,
    options: RunOptions<'_>,
    input: &mut I,
    out: &mut W,
    err: &mut E,
) -> Result<(), RunFault>
where
    R::File: LockFile,
{
    let mut devices = find_devices(rt.alloc(), rt, options.devices)?;
    if let Some(fault) = start_fault(&devices, options.settings.router_id) {
        return Err(fault);
    }
    // It stays if the device's address changes later.
    let router_id = Some(options.settings.router_id_on(&devices));
    let settings = Settings {
        router_id,
        ..options.settings
    };
    let options = RunOptions {
        settings,
        ..options
    };
    // Each line goes out whole: others may write to the same terminal.
    let mut err = match LineWriter::new(rt.alloc(), err) {
        Ok(err) => err,
        Err(error) => return Err(RunFault::Output(LineFault::of_writing(error))),
    };
    match Printer::new(rt.alloc(), printed_of(options), out, &mut err) {
        Ok(mut printer) => run_on(rt, options, &mut devices, input, &mut printer),
        Err(error) => Err(RunFault::from(error)),
    }
}

/// What is printed of the selected routes.
fn printed_of(options: RunOptions<'_>) -> PrintedRoutes<'_> {
    let names = options.names;
    let commands = match options.commands {
        Printed::Yes => Some(RouteLines {
            form: RouteForm::Commands,
            names,
        }),
        Printed::No => None,
    };
    let routes = match options.routes {
        Printed::Yes => Some(RouteLines {
            form: RouteForm::Text,
            names,
        }),
        Printed::No => None,
    };
    PrintedRoutes { commands, routes }
}

// In each of these functions at most one value has to be given back if the next step fails.

/// Makes the wire, makes or restores the speaker, and runs it.
fn run_on<'a, R: AllocGlobal + Net + Clock + Files, I: Read + AsRawFd, W: Write, E: Write>(
    rt: &R,
    options: RunOptions<'a>,
    devices: &mut [Tracked<'a>],
    input: &mut I,
    printer: &mut Printer<'_, '_, W, E>,
) -> Result<(), RunFault>
where
    R::File: LockFile,
{
    let wire = LinkWire::new(rt, input, options.port, devices.len())?;
    match start(rt, options, devices) {
        Ok((store, mut speaker)) => {
            let mut wire = KeptWire { wire, store };
            run_over(options, &mut speaker, devices, &mut wire, printer)
        }
        Err(fault) => Err(fault),
    }
}

/// Opens the sockets, and then the control socket if there is to be one, and runs the speaker.
fn run_over<'a, 'r, R, I: Read + AsRawFd, W: Write, E: Write>(
    options: RunOptions<'a>,
    speaker: &mut Speaker,
    devices: &mut [Tracked<'a>],
    wire: &mut KeptWire<'r, LinkWire<'r, R, I>, R>,
    printer: &mut Printer<'_, '_, W, E>,
) -> Result<(), RunFault>
where
    R: AllocGlobal + Net + Clock + Files,
    R::File: LockFile,
{
    open_links(&mut wire.wire, devices)?;
    let system = wire.wire.system;
    let mut driver = DurableDriver::new(system.alloc(), MAX_DATAGRAM_LEN)?;
    open_control(options.control, &wire.wire, &mut printer.control)?;
    let mut router = Router {
        alloc: system.alloc(),
        settings: options.settings,
        speaker,
        driver: &mut driver,
        devices,
        pace: Pace::default(),
        counts: Counts::default(),
        last_turn: DurableReport::default(),
        next_request: 0,
    };
    let ended = router.take_turns(options.turns, wire, printer);
    remove_socket(system, options.control);
    ended
}

/// Opens the control socket at the place, if there is to be one.
///
/// # Errors
///
/// W7.
fn open_control<R: AllocGlobal + Net + Clock + Files, I: Read + AsRawFd>(
    place: Option<ControlPlace<'_>>,
    wire: &LinkWire<'_, R, I>,
    control: &mut Option<Control>,
) -> Result<(), RunFault> {
    if let Some(place) = place {
        let alloc = wire.system.alloc();
        match Control::open(alloc, wire.system, place, wire.registry(), FIRST_OTHER) {
            Ok(opened) => *control = Some(opened),
            Err(_) => return Err(RunFault::Control),
        }
    }
    Ok(())
}

/// Opens the sockets of each device that can be used.
fn open_links<R: Clock + Net, I: Read + AsRawFd>(
    wire: &mut LinkWire<'_, R, I>,
    devices: &[Tracked<'_>],
) -> Result<(), RunFault> {
    for (number, tracked) in devices.iter().enumerate() {
        if let Some(device) = tracked.device() {
            if wire.open_link(number, device).is_err() {
                return Err(RunFault::Device(number, DeviceFault::Socket));
            }
        }
    }
    wire.note_look();
    Ok(())
}

/// The speaker, and the file that it is kept in. If that is there, the speaker is restored from it.
fn start<'a, R: AllocGlobal + Files>(
    rt: &'a R,
    options: RunOptions<'a>,
    devices: &[Tracked<'_>],
) -> Result<(Option<SnapshotStore<'a, R>>, Speaker), RunFault>
where
    R::File: LockFile,
{
    let alloc = rt.alloc();
    let config = config_of(alloc, options.settings, devices)?;
    if let Err(fault) = config.check() {
        return Err(RunFault::Config(fault));
    }
    match open_kept(alloc, rt, config, options.keep) {
        Ok(started) => Ok(started),
        Err(fault) => Err(RunFault::from(fault)),
    }
}

/// The devices of these names. A tentative address is waited for.
fn find_devices<'a, R: Clock + Files>(
    alloc: Global,
    rt: &R,
    named: &[DeviceSettings<'a>],
) -> Result<Vec<Tracked<'a>>, RunFault> {
    for _ in 0..MAX_TENTATIVE {
        let devices = devices_now(alloc, rt, named)?;
        if !is_one_tentative(&devices) {
            return Ok(devices);
        }
        rt.sleep(Duration::from_millis(100));
    }
    devices_now(alloc, rt, named)
}

fn is_one_tentative(devices: &[Tracked<'_>]) -> bool {
    for device in devices {
        if device.fault() == Some(DeviceFault::Tentative) {
            return true;
        }
    }
    false
}

fn devices_now<'a, R: Files>(
    alloc: Global,
    rt: &R,
    named: &[DeviceSettings<'a>],
) -> Result<Vec<Tracked<'a>>, RunFault> {
    match Lists::read(alloc, rt) {
        Ok(lists) => Ok(listed(alloc, &lists, named)?),
        Err(_) => Err(RunFault::System),
    }
}

fn listed<'a>(
    alloc: Global,
    lists: &Lists,
    named: &[DeviceSettings<'a>],
) -> Result<Vec<Tracked<'a>>, AllocError> {
    let mut devices = Vec::new(alloc);
    for settings in named {
        devices.push(Tracked::of(*settings, lists.device(settings.name, None)))?;
    }
    Ok(devices)
}

/// Why a speaker can't begin on these devices: one has a fault that doesn't pass, none can be used,
/// or the first one is to give the router-id and can't be used.
fn start_fault(devices: &[Tracked<'_>], router_id: Option<[u8; 8]>) -> Option<RunFault> {
    let mut first = None;
    let mut is_one_used = false;
    for (number, device) in devices.iter().enumerate() {
        let Some(fault) = device.fault() else {
            is_one_used = true;
            continue;
        };
        if !fault.may_pass() {
            return Some(RunFault::Device(number, fault));
        }
        if first.is_none() {
            first = Some((number, fault));
        }
    }
    match first {
        Some((number, fault)) if !is_one_used || number == 0 && router_id.is_none() => {
            Some(RunFault::Device(number, fault))
        }
        _ => None,
    }
}
