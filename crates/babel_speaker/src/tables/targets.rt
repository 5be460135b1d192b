//! The targets of items.

ghost use Rattle.std.specs.Prelude.{◌≡◌, IsTrue};
ghost use Rattle.babel_state.specs.NextDatagram.{is_same_receiver, is_same_target};
ghost use Rattle.babel_state.specs.OutgoingMessages.{to_all, to_peer};

use babel_state::Target;
use babel_value::{Addr, Peer};

/// All neighbours of the interface.
pub fn to_all(iface: u8) -> Target
    ensures { result ≡ to_all iface }
{
    Target { iface, to: None }
}

/// The neighbour alone.
pub fn to_peer(peer: Peer) -> Target
    ensures { result ≡ to_peer peer }
{
    Target {
        iface: peer.iface,
        to: Some(peer.addr),
    }
}

/// Whether two receivers are the same.
#[inline(always)]
fn is_same_receiver(a: &Option<Addr>, b: &Option<Addr>) -> bool
    ensures { result ≡ is_same_receiver a.now b.now }
{
    match (a, b) {
        (Some(a), Some(b)) => a.cmp(b).is_eq(),
        (None, None) => true,
        _ => false,
    }
}

/// Whether two targets are the same.
#[inline(always)]
#[tactic(auto, using(babel_state::proofs::Targets::same_target))]
pub fn is_same_target(a: &Target, b: &Target) -> bool
    ensures same { result ≡ is_same_target a.now b.now }
    ensures equal { IsTrue result → a.now ≡ b.now }
{
    a.iface == b.iface && is_same_receiver(&a.to, &b.to)
}
