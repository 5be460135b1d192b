//! Links that are lost between turns.

ghost use Rattle.std.specs.Prelude.{◌≡◌};
ghost use Rattle.babel_speaker.specs.Versions.{CountsChanges};
ghost use Rattle.babel_wire.specs.Intakes.{IsOneLoss};

use crate::Wire;
use babel_speaker::Speaker;

/// The interface is down, as the system says: its links cost infinity (RFC 8966, section 3.4.3),
/// at the moment of the wire: [`Speaker::lose_links`]. Nothing is sent before the next turn, so
/// nothing has to be kept.
pub fn lose_links<W: Wire>(speaker: &mut Speaker, wire: &mut W, iface: u8)
    ensures loss { IsOneLoss iface speaker.old.state (W.history wire.old) speaker.new.state (W.history wire.new) }
    ensures counted { CountsChanges speaker.old speaker.new }
    ensures faults { W.fault_count wire.new ≡ W.fault_count wire.old }
{
    let now = wire.now();
    speaker.lose_links(now, iface);
}
