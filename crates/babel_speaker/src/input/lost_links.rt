//! The links of an interface that is down (RFC 8966, section 3.4.3).

ghost use Rattle.std.specs.Prelude.{◌≡◌, IsTrue, IsFalse};
ghost use Rattle.babel_state.specs.CurrentSelections.{AreCurrent};
ghost use Rattle.babel_state.specs.KeptRoutes.{KeepsRoutes};
ghost use Rattle.babel_state.specs.LostLinks.{peers_on, link_lost, each_lost, links_lost};

use crate::hints::Hints;
use crate::input::messages::handle_content;
use crate::input::records::Arrival;
use crate::state::Core;
use arrayvec::ArrayVec;
use babel_link::{MAX_NEIGHBOURS, Neighbours};
use babel_message::{Content, Message};
use babel_value::{Metric, Peer};

/// The neighbours on the interface, in ascending order.
fn peers_on(neighbours: &Neighbours, iface: u8) -> ArrayVec<Peer, MAX_NEIGHBOURS>
    ensures { result.items ≡ peers_on iface neighbours.now }
{
    let mut peers = ArrayVec::new();
    for peer in neighbours.peers() {
        if peer.iface == iface {
            peers.push(peer);
        }
    }
    peers
}

/// The link to the neighbour costs infinity from now on, as after its IHU that it hears nobody.
fn lose_link(core: &mut Core, now: u64, peer: &Peer, hints: &mut Hints)
    requires settled { IsTrue hints.old.settled → AreCurrent core.old }
    ensures state { core.new ≡ link_lost now peer.now core.old }
    ensures current { IsTrue hints.new.settled → AreCurrent core.new }
    ensures kept { IsFalse hints.new.changed → KeepsRoutes core.old core.new }
    ensures stays { IsFalse hints.new.changed → IsFalse hints.old.changed }
{
    let arrival = Arrival {
        time: now,
        peer: *peer,
    };
    let deaf = Content::Message(Message::Ihu {
        to: None,
        rxcost: Metric::INFINITE,
        interval: 1,
    });
    let _ = handle_content(core, &arrival, &deaf, hints);
}

/// The same for each of the neighbours.
fn lose_each(core: &mut Core, now: u64, peers: &[Peer], hints: &mut Hints)
    requires settled { IsTrue hints.old.settled → AreCurrent core.old }
    ensures state { core.new ≡ each_lost now peers.now core.old }
    ensures current { IsTrue hints.new.settled → AreCurrent core.new }
    ensures kept { IsFalse hints.new.changed → KeepsRoutes core.old core.new }
{
    for peer in peers {
        lose_link(core, now, peer, hints);
    }
}

/// The same for each neighbour on the interface. If the speaker is settled, it stays so. If the
/// hints aren't `changed` then, the selected routes are reported as before.
#[tactic(auto, unfolding(babel_state::specs::LostLinks::links_lost))]
pub(crate) fn lose_links(core: &mut Core, now: u64, iface: u8, hints: &mut Hints)
    requires settled { IsTrue hints.old.settled → AreCurrent core.old }
    ensures state { core.new ≡ links_lost now iface core.old }
    ensures current { IsTrue hints.new.settled → AreCurrent core.new }
    ensures kept { IsFalse hints.new.changed → KeepsRoutes core.old core.new }
{
    let peers = peers_on(&core.neighbours, iface);
    lose_each(core, now, peers.as_slice(), hints);
}
