//! A speaker over a wire and a store, turn after turn.

ghost use Rattle.std.specs.Prelude.{◌≡◌, ◌+◌, ◌*◌, ◌≤◌, ◌<◌, ◌^◌, length, map, Option, None, IfOk};
ghost use Rattle.babel_state.specs.Restarts.{Snapshot};
ghost use Rattle.babel_speaker.specs.Versions.{CountsChanges};
ghost use Rattle.babel_wire.specs.Turns.{max_sends, SendsPending};
ghost use Rattle.babel_wire.specs.DurableRuns.{Fits, IsDurableRun, IsOneDurableTurn, AreGiven, together};
ghost use Rattle.babel_wire.specs.Taken.{waiting};

use crate::driving::{MAX_SENDS, receive_observed};
use crate::durable::outbox::Outbox;
use crate::{DurableReport, DurableWire, Keeper, Receipts, Report, Wire, WireFault};
use arrayvec::ArrayVec;
use babel_speaker::Speaker;
use babel_speaker::laws::counts_add_up;
use babel_state::Target;
use std::alloc::{AllocError, Global};

/// Sees each turn of a driven speaker. It is given the speaker after the snapshot of the turn was
/// kept, or wasn't, and before a datagram is sent. It can't change the speaker.
pub trait Observer: Receipts {
    /// A turn at the moment `now`, in centiseconds.
    fn turn(&mut self, now: u64, speaker: &Speaker);

    /// A datagram of the turn is sent next.
    fn sent(&mut self, _now: u64, _target: &Target, _octets: &[u8]) {}
}

/// What is kept from one call of [`drive_durable`] to the next, and the room that a turn takes.
#[derive(Drop)]
pub struct DurableDriver {
    /// Which snapshot was kept last.
    pub keeper: Keeper,
    // The datagrams of a turn wait here until the snapshot is kept.
    outbox: Outbox,
    // A datagram that comes is written here.
    pub(crate) buf: Vec<u8>,
}

impl DurableDriver {
    /// A driver of a process that has kept nothing yet, with room for datagrams of at most this
    /// length.
    pub fn new(alloc: Global, buf_len: usize) -> Result<DurableDriver, AllocError>
        ensures { IfOk result (λ driver. driver.keeper ≡ None) }
    {
        Ok(DurableDriver {
            keeper: Keeper::new(),
            outbox: Outbox::new(alloc)?,
            buf: vec![in alloc; 0u8; buf_len]?,
        })
    }
}

/// Drives a speaker for some turns, each as [`crate::drive`] does, but before the datagrams of
/// a turn are sent the snapshot is kept, if it isn't the one that was kept last. If it can't be
/// kept, the datagrams are lost, and the next turn tries again.
///
/// So wherever the process is killed, the speaker that is restored from what is on disk knows of
/// all that was sent.
pub fn drive_durable<W: DurableWire, O: Observer>(
    speaker: &mut Speaker,
    driver: &mut DurableDriver,
    wire: &mut W,
    observer: &mut O,
    turns: u32,
) -> DurableReport
    requires { W.Wire.fault_count wire.old ≤ 2 ^ 63 }
    ensures run { (last : Option Snapshot) → Fits last driver.old.keeper speaker.old → IsDurableRun turns last driver.old.keeper speaker.old (W.Wire.history wire.old) driver.new.keeper speaker.new (W.Wire.history wire.new) result }
    ensures counted { CountsChanges speaker.old speaker.new }
    ensures faults { W.Wire.fault_count wire.new ≡ W.Wire.fault_count wire.old + result.report.faults }
    ensures received_at_most { result.report.received ≤ turns }
    ensures sent_at_most { result.report.sent + result.lost ≤ max_sends * turns }
    ensures refused_at_most { result.report.refused ≤ turns }
    ensures faults_at_most { result.report.faults ≤ (max_sends + 1) * turns }
    ensures failed_keeps_at_most { result.failed_keeps ≤ turns }
{
    counts_add_up();
    let mut report = DurableReport::default();
    for _ in 0..turns {
        let turn = run_turn(speaker, driver, wire, observer);
        report = both(report, turn);
    }
    report
}

/// The counts of two reports together.
fn both(first: DurableReport, second: DurableReport) -> DurableReport
    requires received { first.report.received + second.report.received < 2 ^ 64 }
    requires sent { first.report.sent + second.report.sent < 2 ^ 64 }
    requires refused { first.report.refused + second.report.refused < 2 ^ 64 }
    requires faults { first.report.faults + second.report.faults < 2 ^ 64 }
    requires failed_keeps { first.failed_keeps + second.failed_keeps < 2 ^ 64 }
    requires lost { first.lost + second.lost < 2 ^ 64 }
    ensures { result ≡ together first second }
{
    DurableReport {
        report: Report {
            received: first.report.received + second.report.received,
            sent: first.report.sent + second.report.sent,
            refused: first.report.refused + second.report.refused,
            faults: first.report.faults + second.report.faults,
        },
        failed_keeps: first.failed_keeps + second.failed_keeps,
        lost: first.lost + second.lost,
    }
}

/// One turn.
fn run_turn<W: DurableWire, O: Observer>(
    speaker: &mut Speaker,
    driver: &mut DurableDriver,
    wire: &mut W,
    observer: &mut O,
) -> DurableReport
    requires { W.Wire.fault_count wire.old + (max_sends + 1) < 2 ^ 64 }
    ensures turn { IsOneDurableTurn driver.old.keeper speaker.old (W.Wire.history wire.old) driver.new.keeper speaker.new (W.Wire.history wire.new) result }
    ensures counted { CountsChanges speaker.old speaker.new }
    ensures faults { W.Wire.fault_count wire.new ≡ W.Wire.fault_count wire.old + result.report.faults }
    ensures received_at_most { result.report.received ≤ 1 }
    ensures sent_at_most { result.report.sent + result.lost ≤ max_sends }
    ensures refused_at_most { result.report.refused ≤ 1 }
    ensures faults_at_most { result.report.faults ≤ max_sends + 1 }
    ensures failed_keeps_at_most { result.failed_keeps ≤ 1 }
{
    counts_add_up();
    let came = wire.recv(&mut driver.buf);
    let now = wire.now();
    let received = receive_observed(speaker, now, came, &driver.buf, observer);
    speaker.tick(now);
    take_pending(speaker, now, &mut driver.outbox);
    let is_kept = driver.keeper.keep(speaker, wire);
    observer.turn(now, speaker);
    if !is_kept {
        return DurableReport {
            report: received,
            failed_keeps: 1,
            lost: driver.outbox.count() as u64,
        };
    }
    show_sends(&driver.outbox, now, observer);
    let sends = send_all(&driver.outbox, wire);
    DurableReport {
        report: Report {
            received: received.received,
            sent: sends.sent,
            refused: received.refused,
            faults: received.faults + sends.faults,
        },
        failed_keeps: 0,
        lost: 0,
    }
}

/// Takes pending datagrams, at most 64.
fn take_pending(speaker: &mut Speaker, now: u64, outbox: &mut Outbox)
    ensures taken { SendsPending now speaker.old.state (map waiting outbox.new) speaker.new.state }
    ensures counted { CountsChanges speaker.old speaker.new }
    ensures at_most { length outbox.new ≤ max_sends }
{
    counts_add_up();
    outbox.clear();
    for _ in 0..MAX_SENDS {
        let mut octets = ArrayVec::new();
        let Some(target) = speaker.next_datagram(now, &mut octets) else {
            return;
        };
        outbox.push(target, octets);
    }
}

/// Shows the observer all datagrams that wait.
fn show_sends<O: Observer>(outbox: &Outbox, now: u64, observer: &mut O) {
    for datagram in outbox.datagrams() {
        observer.sent(now, &datagram.target, &datagram.octets);
    }
}

/// Gives the wire all datagrams that wait.
fn send_all<W: Wire>(outbox: &Outbox, wire: &mut W) -> Report
    requires at_most { length outbox.now ≤ max_sends }
    requires room { W.fault_count wire.old + max_sends < 2 ^ 64 }
    ensures given { AreGiven outbox.now (W.history wire.old) (W.history wire.new) result }
    ensures faults { W.fault_count wire.new ≡ W.fault_count wire.old + result.faults }
    ensures at_most { result.sent + result.faults ≡ length outbox.now }
{
    let mut report = Report::default();
    for datagram in outbox.datagrams() {
        match wire.send(&datagram.target, &datagram.octets) {
            Ok(()) => report.sent += 1,
            Err(WireFault) => report.faults += 1,
        }
    }
    report
}
