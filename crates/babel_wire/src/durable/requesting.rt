//! Requests for a greater seqno between turns.

ghost use Rattle.std.specs.Prelude.{◌≡◌};
ghost use Rattle.babel_speaker.specs.Versions.{CountsChanges};
ghost use Rattle.babel_wire.specs.Intakes.{IsOneRequest};

use crate::Wire;
use babel_speaker::Speaker;

/// Requests a greater seqno for each route that would be selected if it were feasible (RFC 8966,
/// section 3.8.2.2), at the moment of the wire: [`Speaker::request_seqnos`]. Nothing is sent before
/// the next turn, so nothing has to be kept.
///
/// A caller makes it once a Hello interval, so that a router whose best route got lost or worse
/// takes the best of those that are left.
pub fn request_seqnos<W: Wire>(speaker: &mut Speaker, wire: &mut W)
    ensures request { IsOneRequest speaker.old.state (W.history wire.old) speaker.new.state (W.history wire.new) }
    ensures counted { CountsChanges speaker.old speaker.new }
    ensures faults { W.fault_count wire.new ≡ W.fault_count wire.old }
{
    let now = wire.now();
    speaker.request_seqnos(now);
}
