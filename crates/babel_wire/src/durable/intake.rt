//! Datagrams that are taken in between turns.

ghost use Rattle.std.specs.Prelude.{◌≡◌, ◌+◌, ◌≤◌, ◌^◌};
ghost use Rattle.babel_speaker.specs.Versions.{CountsChanges};
ghost use Rattle.babel_wire.specs.Intakes.{IsOneIntake};

use crate::driving::receive_observed;
use crate::{DurableDriver, DurableWire, Receipts, Report, Wire};
use babel_speaker::Speaker;
use babel_speaker::laws::counts_add_up;

/// Takes in the datagram that came, if there is one, and ticks, as a turn begins. Nothing is sent,
/// so nothing has to be kept: what the speaker has to send stays pending until the next turn.
///
/// What several datagrams make it send then goes out together, and each prefix once (RFC 8966,
/// section 3.1). `receipts` sees what the speaker made of the datagram.
pub fn take_in<W: DurableWire, O: Receipts>(
    speaker: &mut Speaker,
    driver: &mut DurableDriver,
    wire: &mut W,
    receipts: &mut O,
) -> Report
    requires { W.Wire.fault_count wire.old ≤ 2 ^ 63 }
    ensures intake { IsOneIntake speaker.old.state (W.Wire.history wire.old) speaker.new.state (W.Wire.history wire.new) result }
    ensures keeper { driver.new.keeper ≡ driver.old.keeper }
    ensures counted { CountsChanges speaker.old speaker.new }
    ensures faults { W.Wire.fault_count wire.new ≡ W.Wire.fault_count wire.old + result.faults }
    ensures received_at_most { result.received ≤ 1 }
    ensures refused_at_most { result.refused ≤ 1 }
    ensures faults_at_most { result.faults ≤ 1 }
{
    counts_add_up();
    let came = wire.recv(&mut driver.buf);
    let now = wire.now();
    let received = receive_observed(speaker, now, came, &driver.buf, receipts);
    speaker.tick(now);
    received
}
