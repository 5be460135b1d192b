//! What several lines have: a neighbour, and a distance.

ghost use Rattle.std.specs.Prelude.{◌≡◌, ◌+◌, ◌≤◌, ◌++◌, length};
ghost use Rattle.babel_value.specs.Lines.{line_room};
ghost use Rattle.babel_replay.specs.Texts.{distance_text, peer_text};

use babel_value::{Distance, Line, Peer};

/// Appends an interface and an address.
pub(crate) fn push_peer(line: &mut Line, peer: &Peer)
    requires room { length line.old + 45 ≤ line_room }
    ensures text { line.new ≡ line.old ++ peer_text peer.now }
    ensures short { length line.new ≤ length line.old + 45 }
{
    line.push_u16(u16::from(peer.iface));
    line.push_str(" ");
    line.push_addr(&peer.addr);
}

/// Appends a seqno and a metric.
pub(crate) fn push_distance(line: &mut Line, distance: &Distance)
    requires room { length line.old + 11 ≤ line_room }
    ensures text { line.new ≡ line.old ++ distance_text distance.now }
    ensures short { length line.new ≤ length line.old + 11 }
{
    line.push_u16(distance.seqno.0);
    line.push_field(" ", distance.metric.0);
}
