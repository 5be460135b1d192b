//! A speaker over a wire, turn after turn.

ghost use Rattle.std.specs.Prelude.{◌≡◌, ◌+◌, ◌*◌, ◌≤◌, ◌<◌, ◌^◌};
ghost use Rattle.babel_speaker.specs.Versions.{CountsChanges};
ghost use Rattle.babel_wire.specs.Calls.{receipt_of, Datagram, IsWithin};
ghost use Rattle.babel_wire.specs.Turns.{max_sends, Receives, IsRun, IsOneTurn, IsReceived, IsSent};

use crate::{Arrival, NoReceipts, Receipts, Report, Wire, WireFault};
use arrayvec::ArrayVec;
use babel_speaker::Speaker;
use babel_tlv::DATAGRAM_LEN;

/// How many datagrams are sent in a turn at most.
pub(crate) const MAX_SENDS: usize = 64;

/// Drives a speaker over a wire for some turns. A turn takes the datagram that came, if there is
/// one, then the speaker's tick, then sends at most 64 datagrams. The moment is asked once in a
/// turn, after receiving. A failure of the wire is counted, and the turn goes on: a datagram that
/// could not be sent is lost.
///
/// `buf` takes the datagrams that come.
pub fn drive<W: Wire>(speaker: &mut Speaker, wire: &mut W, buf: &mut [u8], turns: u32) -> Report
    requires { W.fault_count wire.old ≤ 2 ^ 63 }
    ensures run { IsRun turns speaker.old.state (W.history wire.old) speaker.new.state (W.history wire.new) result }
    ensures faults { W.fault_count wire.new ≡ W.fault_count wire.old + result.faults }
    ensures received_at_most { result.received ≤ turns }
    ensures sent_at_most { result.sent ≤ max_sends * turns }
    ensures refused_at_most { result.refused ≤ turns }
    ensures faults_at_most { result.faults ≤ (max_sends + 1) * turns }
{
    let mut report = Report::default();
    let mut out = ArrayVec::new();
    for _ in 0..turns {
        let turn = run_turn(speaker, wire, buf, &mut out);
        report.received += turn.received;
        report.sent += turn.sent;
        report.refused += turn.refused;
        report.faults += turn.faults;
    }
    report
}

/// One turn.
fn run_turn<W: Wire>(
    speaker: &mut Speaker,
    wire: &mut W,
    buf: &mut [u8],
    out: &mut ArrayVec<u8, DATAGRAM_LEN>,
) -> Report
    requires { W.fault_count wire.old + (max_sends + 1) < 2 ^ 64 }
    ensures turn { IsOneTurn speaker.old.state (W.history wire.old) speaker.new.state (W.history wire.new) result }
    ensures faults { W.fault_count wire.new ≡ W.fault_count wire.old + result.faults }
    ensures received_at_most { result.received ≤ 1 }
    ensures sent_at_most { result.sent ≤ max_sends }
    ensures refused_at_most { result.refused ≤ 1 }
    ensures faults_at_most { result.faults ≤ max_sends + 1 }
{
    let came = wire.recv(buf);
    let now = wire.now();
    let receipt = receive(speaker, now, came, buf);
    speaker.tick(now);
    let sends = send_pending(speaker, wire, now, out);
    Report {
        received: receipt.received,
        sent: sends.sent,
        refused: receipt.refused,
        faults: receipt.faults + sends.faults,
    }
}

/// Passes to the speaker what [`Wire::recv`] returned, with the buffer that it wrote to, and counts
/// it.
pub fn receive(
    speaker: &mut Speaker,
    now: u64,
    came: Result<Option<Arrival>, WireFault>,
    buf: &[u8],
) -> Report
    requires { IsWithin came buf.now }
    ensures received { IsReceived now (receipt_of came buf.now) speaker.old.state speaker.new.state result }
    ensures counted { CountsChanges speaker.old speaker.new }
    ensures received_at_most { result.received ≤ 1 }
    ensures refused_at_most { result.refused ≤ 1 }
    ensures faults_at_most { result.faults ≤ 1 }
{
    let mut receipts = NoReceipts;
    receive_observed(speaker, now, came, buf, &mut receipts)
}

/// The same as [`receive`], and shows what the speaker made of it.
pub fn receive_observed<O: Receipts>(
    speaker: &mut Speaker,
    now: u64,
    came: Result<Option<Arrival>, WireFault>,
    buf: &[u8],
    receipts: &mut O,
) -> Report
    requires { IsWithin came buf.now }
    ensures received { IsReceived now (receipt_of came buf.now) speaker.old.state speaker.new.state result }
    ensures counted { CountsChanges speaker.old speaker.new }
    ensures received_at_most { result.received ≤ 1 }
    ensures refused_at_most { result.refused ≤ 1 }
    ensures faults_at_most { result.faults ≤ 1 }
{
    match came {
        Err(WireFault) => Report {
            faults: 1,
            ..Report::default()
        },
        Ok(None) => Report::default(),
        Ok(Some(arrival)) => {
            let octets = &buf[..arrival.len];
            let is_refused = receive_datagram(speaker, now, arrival, octets, receipts);
            Report {
                received: 1,
                refused: u64::from(is_refused),
                ..Report::default()
            }
        }
    }
}

/// Passes a datagram to the speaker, and returns whether it was refused.
fn receive_datagram<O: Receipts>(
    speaker: &mut Speaker,
    now: u64,
    arrival: Arrival,
    octets: &[u8],
    receipts: &mut O,
) -> bool
    ensures received { Receives now (Datagram arrival.iface arrival.source octets.now) result speaker.old.state speaker.new.state }
    ensures counted { CountsChanges speaker.old speaker.new }
{
    let outcome = speaker.receive(now, arrival.iface, arrival.source, octets);
    receipts.received(now, &arrival, octets, &outcome);
    outcome.is_err()
}

/// Sends pending datagrams, at most 64.
fn send_pending<W: Wire>(
    speaker: &mut Speaker,
    wire: &mut W,
    now: u64,
    out: &mut ArrayVec<u8, DATAGRAM_LEN>,
) -> Report
    requires { W.fault_count wire.old + max_sends < 2 ^ 64 }
    ensures sends { IsSent now speaker.old.state (W.history wire.old) speaker.new.state (W.history wire.new) result }
    ensures faults { W.fault_count wire.new ≡ W.fault_count wire.old + result.faults }
    ensures at_most { result.sent + result.faults ≤ max_sends }
{
    let mut report = Report::default();
    for _ in 0..MAX_SENDS {
        let Some(target) = speaker.next_datagram(now, out) else {
            return report;
        };
        match wire.send(&target, out) {
            Ok(()) => report.sent += 1,
            Err(WireFault) => report.faults += 1,
        }
    }
    report
}
