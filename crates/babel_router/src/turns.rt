//! The turns of a speaker on real links, and what becomes of its devices meanwhile.

ghost use Rattle.std.specs.Prelude.{◌≤◌, ◌^◌};

use crate::RunFault;
use crate::controlling::{Service, counts_of, device_view};
use crate::counting::{Counts, added};
use crate::keeping::KeptWire;
use crate::limits::MAX_FAULTS;
use crate::pacing::{self, Pace, Place};
use crate::printing::{Note, Printer};
use babel_control::{DeviceView, Wish};
use babel_devices::{
    DeviceFault, DeviceSettings, LinkWire, Lists, Settings, Step, Tracked, config_of, hear,
};
use babel_snapshot_file::{LockFile, SnapshotFileFault};
use babel_speaker::Speaker;
use babel_state::MAX_HELLO_INTERVAL;
use babel_text::LineFault;
use babel_wire::{
    DurableDriver, DurableReport, Keeper, Wire, drive_durable, lose_links, request_seqnos, take_in,
};
use std::alloc::{AllocError, Global};
use std::fs::Files;
use std::io::{Read, Write};
use std::net::Net;
use std::os::fd::AsRawFd;
use std::time::Clock;

/// The snapshot can't be kept in the first turn.
const UNKEPT: RunFault = RunFault::SnapshotFile(SnapshotFileFault::Unwritable);

/// A speaker on real links, with its devices.
#[derive(Drop)]
pub(crate) struct Router<'d, 'a> {
    pub(crate) alloc: Global,
    pub(crate) settings: Settings<'a>,
    pub(crate) speaker: &'d mut Speaker,
    pub(crate) driver: &'d mut DurableDriver,
    /// By the numbers of the interfaces.
    pub(crate) devices: &'d mut [Tracked<'a>],
    pub(crate) pace: Pace,
    /// What was counted in all steps.
    pub(crate) counts: Counts,
    /// What was counted in the last turn. Steps that only take in what waits are none.
    pub(crate) last_turn: DurableReport,
    /// From when on seqnos may be requested again, in centiseconds.
    pub(crate) next_request: u64,
}

impl Router<'_, '_> {
    /// Takes the turns, and prints what changed and what was counted.
    pub(crate) fn take_turns<'r, R: Net + Clock + Files, I: Read + AsRawFd, W: Write, E: Write>(
        &mut self,
        turns: u64,
        wire: &mut KeptWire<'r, LinkWire<'r, R, I>, R>,
        printer: &mut Printer<'_, '_, W, E>,
    ) -> Result<(), RunFault>
    where
        R::File: LockFile,
    {
        printer.begin()?;
        let ended = self.take_all(turns, wire, printer);
        if ended.is_err() && self.counts.turns == 0 {
            return ended;
        }
        // The kernel's routes are taken away also if a change couldn't be written.
        printer.end(self.speaker, self.counts)?;
        ended
    }

    /// Takes the turns until the input ends.
    fn take_all<'r, R: Net + Clock + Files, I: Read + AsRawFd, W: Write, E: Write>(
        &mut self,
        turns: u64,
        wire: &mut KeptWire<'r, LinkWire<'r, R, I>, R>,
        printer: &mut Printer<'_, '_, W, E>,
    ) -> Result<(), RunFault>
    where
        R::File: LockFile,
    {
        for number in 0..turns {
            if wire.wire.has_ended || printer.has_failed() {
                break;
            }
            if wire.wire.has_to_look() {
                self.look_at_devices(wire, printer)?;
            }
            let place = place_of(number, turns);
            let Some(counted) = self.take_step(wire, printer, place) else {
                return Ok(());
            };
            if counted.failed_keeps > 0 && self.counts.turns == 0 {
                return Err(UNKEPT);
            }
            self.counts.add(counted);
            printer.note_keeping(self.last_turn);
            self.request_seqnos(wire);
            if number == 0 {
                note_unused(self.devices, printer);
            }
            if let Wish::Stop = self.serve_control(wire, printer) {
                break;
            }
        }
        self.send_rest(wire, printer);
        Ok(())
    }

    /// Takes a turn, or only takes in what comes, and returns what was counted. `None`: the wire
    /// has failed too often.
    fn take_step<'r, R: Net + Clock + Files, I: Read + AsRawFd, W: Write, E: Write>(
        &mut self,
        wire: &mut KeptWire<'r, LinkWire<'r, R, I>, R>,
        printer: &mut Printer<'_, '_, W, E>,
        place: Place,
    ) -> Option<DurableReport>
    where
        R::File: LockFile,
    {
        if wire.faults() > MAX_FAULTS {
            return None;
        }
        let due = if self.pace.needs_due() {
            self.speaker.next_due()
        } else {
            0
        };
        match self.pace.next(wire.wire.moment, due, place) {
            pacing::Step::Turn(until) => {
                wire.wire.wait_until(until);
                let turn = self.take_turn(wire, printer);
                self.pace.note_turn(wire.wire.moment, turn);
                self.last_turn = turn;
                Some(turn)
            }
            pacing::Step::TakeIn(until) => {
                wire.wire.pause_until(until);
                let report = take_in(self.speaker, self.driver, wire, printer);
                let pending = self.speaker.pending_count();
                self.pace.note_taken(wire.wire.moment, report, pending);
                Some(DurableReport {
                    report,
                    ..DurableReport::default()
                })
            }
        }
    }

    /// Takes in what comes and what is due, and sends all that is pending, in as few datagrams as
    /// can be (RFC 8966, section 4). So the turn itself takes in nothing.
    fn take_turn<'r, R: Net + Clock + Files, I: Read + AsRawFd, W: Write, E: Write>(
        &mut self,
        wire: &mut KeptWire<'r, LinkWire<'r, R, I>, R>,
        printer: &mut Printer<'_, '_, W, E>,
    ) -> DurableReport
    where
        R::File: LockFile,
        requires { wire.old.wire.faults ≤ 2 ^ 62 }
    {
        let taken = take_in(self.speaker, self.driver, wire, printer);
        self.speaker.group_items();
        wire.wire.pass();
        let turn = drive_durable(self.speaker, self.driver, wire, printer, 1);
        DurableReport {
            report: added(turn.report, taken),
            ..turn
        }
    }

    /// Requests a greater seqno for each route that would be selected if it were feasible, once a
    /// Hello interval: it is selected once its source has replied (RFC 8966, section 3.8.2.2).
    /// The next turn sends it.
    fn request_seqnos<'r, R: Net + Clock + Files, I: Read + AsRawFd>(
        &mut self,
        wire: &mut KeptWire<'r, LinkWire<'r, R, I>, R>,
    )
    where
        R::File: LockFile,
    {
        let moment = wire.wire.moment;
        if moment < self.next_request {
            return;
        }
        self.next_request = moment.saturating_add(least_hello(self.devices));
        request_seqnos(self.speaker, wire);
    }

    /// A run that ends leaves nothing pending.
    fn send_rest<'r, R: Net + Clock + Files, I: Read + AsRawFd, W: Write, E: Write>(
        &mut self,
        wire: &mut KeptWire<'r, LinkWire<'r, R, I>, R>,
        printer: &mut Printer<'_, '_, W, E>,
    )
    where
        R::File: LockFile,
    {
        if self.counts.turns == 0 || printer.has_failed() || self.speaker.next_due() > 0 {
            return;
        }
        if let Some(turn) = self.take_step(wire, printer, Place::Last) {
            self.counts.add(turn);
            printer.note_keeping(turn);
        }
    }

    /// Serves the clients of the control socket.
    fn serve_control<'r, R: Net + Clock + Files, I: Read + AsRawFd, W: Write, E: Write>(
        &mut self,
        wire: &mut KeptWire<'r, LinkWire<'r, R, I>, R>,
        printer: &mut Printer<'_, '_, W, E>,
    ) -> Wish
    where
        R::File: LockFile,
    {
        let ready = wire.wire.take_ready();
        let Some(control) = &mut printer.control else {
            return Wish::Nothing;
        };
        if control.is_idle(ready) {
            return Wish::Nothing;
        }
        // Without memory for them nobody is served in this turn.
        let Ok(devices) = views_of(self.alloc, self.devices) else {
            return Wish::Nothing;
        };
        let service = Service {
            devices: &devices,
            now: wire.now(),
            ready,
            counts: counts_of(self.counts),
            keeping: wire.keeping(self.last_turn),
        };
        control.serve(self.speaker, wire.wire.registry(), service)
    }

    /// Opens and closes the sockets of devices that have changed. If an address is another one, the
    /// speaker starts again.
    fn look_at_devices<'r, R: Net + Clock + Files, I: Read + AsRawFd, W: Write, E: Write>(
        &mut self,
        wire: &mut KeptWire<'r, LinkWire<'r, R, I>, R>,
        printer: &mut Printer<'_, '_, W, E>,
    ) -> Result<(), RunFault>
    where
        R::File: LockFile,
    {
        hear(self.devices, wire.wire.heard());
        // If the system's lists can't be read now, they are at the next look.
        if let Ok(lists) = Lists::read(self.alloc, wire.wire.system) {
            let lost = look_at_each(self.devices, &lists, &mut wire.wire, printer);
            self.lose_links(lost, wire);
        }
        wire.wire.note_look();
        if self.take_addresses(printer) {
            printer.note_restart();
            return self.restart(wire.now());
        }
        Ok(())
    }

    /// The links of these devices are lost, at once, before any Hello is missed.
    fn lose_links<'r, R: Net + Clock + Files, I: Read + AsRawFd>(
        &mut self,
        lost: DeviceSet,
        wire: &mut KeptWire<'r, LinkWire<'r, R, I>, R>,
    )
    where
        R::File: LockFile,
    {
        for number in 0..self.devices.len() {
            if lost.has(number) {
                lose_links(self.speaker, wire, u8::try_from(number).unwrap_or(u8::MAX));
            }
        }
    }

    /// Takes the addresses that the devices have now. Returns whether one is another.
    fn take_addresses<W: Write, E: Write>(&mut self, printer: &mut Printer<'_, '_, W, E>) -> bool {
        let mut is_other = false;
        for device in self.devices.iter_mut() {
            if device.take_addresses() {
                printer.note(device.settings.name, Note::Moved);
                is_other = true;
            }
        }
        is_other
    }

    /// The speaker is made again, of its own snapshot and the addresses that the devices have now.
    fn restart(&mut self, moment: u64) -> Result<(), RunFault> {
        match self.speaker.save() {
            Ok(octets) => self.restore(moment, &octets),
            Err(_) => Err(RunFault::Output(LineFault::Memory)),
        }
    }

    fn restore(&mut self, moment: u64, octets: &[u8]) -> Result<(), RunFault> {
        let config = config_of(self.alloc, self.settings, self.devices)?;
        match Speaker::restore(self.alloc, config, moment, octets) {
            Ok(speaker) => {
                *self.speaker = speaker;
                // It counts its changes from the beginning.
                self.driver.keeper = Keeper::new();
                self.pace = Pace::default();
                Ok(())
            }
            Err(fault) => Err(RunFault::Restore(fault)),
        }
    }
}

/// The least Hello interval of the devices, in centiseconds.
fn least_hello(devices: &[Tracked<'_>]) -> u64 {
    let mut least = u64::from(MAX_HELLO_INTERVAL);
    for device in devices {
        least = least.min(u64::from(device.settings.hello));
    }
    least
}

/// Whether one of so many turns is the last.
fn place_of(number: u64, turns: u64) -> Place {
    if turns.saturating_sub(number) > 1 {
        Place::Within
    } else {
        Place::Last
    }
}

/// Says which devices can't be used yet.
fn note_unused<W: Write, E: Write>(devices: &[Tracked<'_>], printer: &mut Printer<'_, '_, W, E>) {
    for device in devices {
        if let Some(fault) = device.fault() {
            printer.note(device.settings.name, Note::Lost(fault));
        }
    }
}

/// Some of the devices, a bit for each.
#[derive(Clone, Copy)]
struct DeviceSet(u64);

impl DeviceSet {
    /// The bit of a device. There are at most 8.
    fn bit_of(number: usize) -> u64 {
        match number {
            number @ 0..64 => 1 << number,
            _ => 0,
        }
    }

    fn insert(&mut self, number: usize) {
        self.0 |= DeviceSet::bit_of(number);
    }

    fn has(self, number: usize) -> bool {
        self.0 & DeviceSet::bit_of(number) != 0
    }
}

/// Looks at each device. Returns those that can't be used any more, or have lost their carriers.
fn look_at_each<R: Clock + Net, I: Read + AsRawFd, W: Write, E: Write>(
    devices: &mut [Tracked<'_>],
    lists: &Lists,
    wire: &mut LinkWire<'_, R, I>,
    printer: &mut Printer<'_, '_, W, E>,
) -> DeviceSet {
    let mut lost = DeviceSet(0);
    for (number, device) in devices.iter_mut().enumerate() {
        let step = device.look(lists);
        if let Step::Close(_) | Step::LoseCarrier = step {
            lost.insert(number);
        }
        if let Some(note) = take_device_step(number, device, step, wire) {
            printer.note_device(number, device.settings.name, note);
        }
        if device.take_report() {
            printer.doubt(number);
        }
    }
    lost
}

/// Opens or closes the sockets of a device, and returns what became of it.
fn take_device_step<R: Clock + Net, I: Read + AsRawFd>(
    number: usize,
    device: &mut Tracked<'_>,
    step: Step,
    wire: &mut LinkWire<'_, R, I>,
) -> Option<Note> {
    match step {
        Step::Nothing => None,
        Step::Close(fault) => {
            wire.close_link(number);
            Some(Note::Lost(fault))
        }
        Step::LoseCarrier => Some(Note::NoCarrier),
        Step::Open(opened) => match wire.open_link(number, opened) {
            Ok(()) => {
                device.note_opened();
                Some(if device.is_new() {
                    Note::Used
                } else {
                    Note::Opened
                })
            }
            Err(_) if device.fail() => Some(Note::Lost(DeviceFault::Socket)),
            Err(_) => None,
        },
    }
}

/// The devices, as the control socket shows them.
fn views_of<'v>(alloc: Global, devices: &[Tracked<'v>]) -> Result<Vec<DeviceView<'v>>, AllocError> {
    let mut views = Vec::new(alloc);
    for tracked in devices {
        let DeviceSettings { name, ipv4, .. } = tracked.settings;
        let view = match tracked.device() {
            Some(device) => device_view(name, Some(device.address), ipv4),
            None => DeviceView {
                name,
                addresses: None,
            },
        };
        views.push(view)?;
    }
    Ok(views)
}
