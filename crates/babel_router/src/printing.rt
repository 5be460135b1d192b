//! What a speaker that runs prints: changes of selected routes, commands for `ip`, keeps that fail,
//! and what was counted.

use crate::controlling::Control;
use crate::counting::{Counts, LastKeep};
use crate::selections::{RouteLines, Selections};
use babel_devices::DeviceFault;
use babel_speaker::Speaker;
use babel_state::{Note as TlvNote, RecvFault, Target};
use babel_text::LineFault;
use babel_value::Peer;
use babel_wire::{Arrival, DurableReport, Observer, Receipts};
use std::alloc::{AllocError, Global};
use std::fmt;
use std::io::{self, Write};

/// What became of a device.
#[derive(Clone, Copy)]
pub(crate) enum Note {
    /// It can't be used any more.
    Lost(DeviceFault),
    /// It has lost its carrier.
    NoCarrier,
    /// Its sockets were opened for the first time, after the start.
    Used,
    /// Its sockets were opened again.
    Opened,
    /// One of its addresses is another one.
    Moved,
}

impl fmt::Display for Note {
    fn fmt<W: fmt::Write>(&self, f: &mut fmt::Formatter<W>) -> fmt::Result {
        f.write_str(match *self {
            Note::Lost(fault) => return fault.fmt(f),
            Note::NoCarrier => "has no carrier: its links are lost",
            Note::Used => "is used",
            Note::Opened => "is used again",
            Note::Moved => "has another address: the speaker starts again from its snapshot",
        })
    }
}

/// What is printed of the selected routes.
#[derive(Clone, Copy)]
pub(crate) struct PrintedRoutes<'a> {
    /// Each change, as a command for `ip`.
    pub(crate) commands: Option<RouteLines<'a>>,
    /// Each change, and all of them at the end, for people.
    pub(crate) routes: Option<RouteLines<'a>>,
}

/// What was printed of the routes, and to where the rest is.
#[derive(Drop)]
pub(crate) struct Printer<'s, 'a, W: Write, E: Write> {
    out: &'s mut W,
    err: &'s mut E,
    commands: Option<Selections<'a>>,
    routes: Option<Selections<'a>>,
    last_keep: LastKeep,
    written: Result<(), LineFault>,
    /// The control socket, if there is one.
    pub(crate) control: Option<Control>,
}

fn selections<'a>(
    alloc: Global,
    lines: Option<RouteLines<'a>>,
) -> Result<Option<Selections<'a>>, AllocError> {
    match lines {
        Some(lines) => Ok(Some(Selections::new(alloc, lines)?)),
        None => Ok(None),
    }
}

impl<'s, 'a, W: Write, E: Write> Printer<'s, 'a, W, E> {
    /// Nothing is printed yet, and there is no control socket.
    pub(crate) fn new(
        alloc: Global,
        printed: PrintedRoutes<'a>,
        out: &'s mut W,
        err: &'s mut E,
    ) -> Result<Printer<'s, 'a, W, E>, AllocError> {
        let commands = selections(alloc, printed.commands)?;
        let routes = selections(alloc, printed.routes)?;
        Ok(Printer {
            out,
            err,
            commands,
            routes,
            last_keep: LastKeep::Done,
            written: Ok(()),
            control: None,
        })
    }

    /// Before anything is sent, the routes of a run that was killed are taken away from the kernel.
    pub(crate) fn begin(&mut self) -> Result<(), LineFault> {
        match self.commands {
            Some(_) => flush_routes(self.out).map_err(LineFault::of_writing),
            None => Ok(()),
        }
    }

    /// The kernel may have lost the routes over the device of this number: they are given to it
    /// again, or taken away if they aren't selected any more.
    pub(crate) fn doubt(&mut self, number: usize) {
        if let (Some(commands), Ok(iface)) = (&mut self.commands, u8::try_from(number)) {
            commands.doubt(iface);
        }
    }

    /// The speaker was made again: all of its routes are looked at in the next turn.
    pub(crate) fn note_restart(&mut self) {
        if let Some(commands) = &mut self.commands {
            commands.note_restart();
        }
        if let Some(routes) = &mut self.routes {
            routes.note_restart();
        }
        if let Some(control) = &mut self.control {
            control.log.note_restart();
        }
    }

    /// A device may have another number. `ip` keeps the numbers that it has seen; this command lets
    /// it read them again.
    fn list_devices(&mut self) {
        if self.commands.is_some() && self.written.is_ok() {
            self.written = writeln!(self.out, "link show").map_err(LineFault::of_writing);
        }
    }

    /// Says what became of the device of this number. If it was opened, `ip` lists the devices, and
    /// the kernel is given the routes over it again.
    pub(crate) fn note_device(&mut self, number: usize, name: &str, note: Note) {
        self.note(name, note);
        if let Note::Used | Note::Opened = note {
            self.list_devices();
            self.doubt(number);
        }
    }

    /// Says what became of a device.
    pub(crate) fn note(&mut self, name: &str, note: Note) {
        // Who can't read it sees it in the neighbours.
        let _ = writeln!(self.err, "babel: device {name} {note}");
    }

    /// Whether writing has failed.
    pub(crate) fn has_failed(&self) -> bool {
        self.written.is_err()
    }

    /// Writes once that the snapshot can't be kept any more, and once that it is kept again.
    pub(crate) fn note_keeping(&mut self, turn: DurableReport) {
        self.last_keep.note(turn, self.err);
    }

    fn write_changes(&mut self, speaker: &Speaker, moment: u64) -> Result<(), LineFault> {
        let Some(commands) = &mut self.commands else {
            return write_if_some(&mut self.routes, speaker, moment, self.out);
        };
        commands.write_changes(speaker, moment, self.out)?;
        write_if_some(&mut self.routes, speaker, moment, self.err)
    }

    /// After the last turn: the kernel gets no route any more, and the table and the counts are
    /// written.
    ///
    /// # Errors
    ///
    /// L7 or L8 of a change before, or L7.
    pub(crate) fn end(&mut self, speaker: &Speaker, counts: Counts) -> Result<(), LineFault> {
        let ended = self.write_end(speaker).map_err(LineFault::of_writing);
        self.written?;
        ended?;
        match self.commands {
            Some(_) => counts.write_to(self.err),
            None => counts.write_to(self.out),
        }
    }

    /// The same, but nothing is written if a change couldn't be written.
    ///
    /// # Errors
    ///
    /// L7 or L8 of a change before, or L7.
    pub(crate) fn end_if_written(
        &mut self,
        speaker: &Speaker,
        counts: Counts,
    ) -> Result<(), LineFault> {
        self.written?;
        self.end(speaker, counts)
    }

    fn write_end(&mut self, speaker: &Speaker) -> io::Result<()> {
        let Some(commands) = &self.commands else {
            return write_table(&self.routes, speaker, self.out);
        };
        commands.write_removals(self.out)?;
        self.out.flush()?;
        write_table(&self.routes, speaker, self.err)
    }
}

impl<W: Write, E: Write> Receipts for Printer<'_, '_, W, E> {
    fn received(
        &mut self,
        now: u64,
        arrival: &Arrival,
        octets: &[u8],
        outcome: &Result<Vec<TlvNote>, RecvFault>,
    ) {
        if let Some(control) = &mut self.control {
            let peer = Peer {
                iface: arrival.iface,
                addr: arrival.source,
            };
            control.log.take_received(now, peer, octets, outcome);
        }
    }
}

impl<W: Write, E: Write> Observer for Printer<'_, '_, W, E> {
    /// What has changed is written after the snapshot was kept, and before a datagram is sent.
    fn turn(&mut self, now: u64, speaker: &Speaker) {
        if self.written.is_ok() {
            self.written = self.write_changes(speaker, now);
        }
        if let Some(control) = &mut self.control {
            control.log.take_turn(now, speaker);
        }
    }

    fn sent(&mut self, now: u64, target: &Target, octets: &[u8]) {
        if let Some(control) = &mut self.control {
            control.log.take_sent(now, target, octets);
        }
    }
}

fn write_if_some<W: Write>(
    selections: &mut Option<Selections<'_>>,
    speaker: &Speaker,
    moment: u64,
    out: &mut W,
) -> Result<(), LineFault> {
    match selections {
        Some(selections) => selections.write_changes(speaker, moment, out),
        None => Ok(()),
    }
}

fn write_table<W: Write>(
    selections: &Option<Selections<'_>>,
    speaker: &Speaker,
    out: &mut W,
) -> io::Result<()> {
    match selections {
        Some(selections) => selections.write_table(speaker, out),
        None => Ok(()),
    }
}

/// Takes all routes of Babel away from the kernel. The first line is for IPv4 alone, in each table
/// the second is for both families.
fn flush_routes<W: Write>(out: &mut W) -> io::Result<()> {
    write!(
        out,
        "route flush proto babel\nroute flush table all proto babel\n"
    )?;
    out.flush()
}
