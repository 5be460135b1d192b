//! The message that an item means at the moment at which it is to be sent (RFC 8966, sections 3.4,
//! 3.7 and 3.8).

ghost use Rattle.std.specs.Prelude.{◌≡◌, ◌≤◌, Some, IfSome, if◌then◌else◌};
ghost use Rattle.babel_state.specs.declared.items.Outgoing.TheVariants as outgoings;
ghost use Rattle.babel_state.specs.Addresses.{address_of};
ghost use Rattle.babel_value.specs.Addresses.{family_of};
ghost use Rattle.babel_value.specs.Prefixes.{PrefixValue};
ghost use Rattle.babel_state.specs.State.{interface_at, is_neighbour};
ghost use Rattle.babel_state.specs.OutgoingMessages.{to_peer, outgoing_ihu, outgoing_finite, outgoing_update, outgoing, outgoing_over, is_source_too_many};
ghost use Rattle.babel_state.specs.Limits.{longest_hello};
ghost use Rattle.babel_speaker.specs.SentMessages.{HasRoom, HasRoomFor, IsCertainlySent, IsMessageTo};

use crate::output::forms::{hello_message, ihu_message, retraction_message, update_message};
use crate::output::records::{Advertisement, Egress};
use crate::state::Core;
use crate::tables::addresses::address_of;
use crate::tables::to_peer;
use babel_choice::{Cursor, Selection};
use babel_message::Message;
use babel_sources::SOURCE_PLACES;
use babel_state::{InterfaceEntry, Item, Outgoing, Target};
use babel_value::{Distance, Metric, Peer, Prefix, Source};

/// The interface of the number.
pub(crate) fn interface_entry(core: &Core, iface: u8) -> Option<InterfaceEntry>
    ensures interface { result ≡ interface_at iface core.now }
    ensures hello { IfSome result (λ i. i.hello ≤ longest_hello) }
{
    core.interfaces.get(iface)
}

/// Whether the source is new to the source table, and that is full.
fn is_source_too_many(core: &Core, source: &Source, cursor: &mut Cursor) -> bool
    ensures { result ≡ is_source_too_many source.now core.now.sources }
{
    core.sources.len() == SOURCE_PLACES
        && core.sources.pair_near(source, &mut cursor.source).is_none()
}

/// An Update with a finite metric, if the interface has an address of the prefix's family.
fn outgoing_finite(
    core: &Core,
    egress: Egress<'_>,
    route: &Advertisement,
    cursor: &mut Cursor,
    out: &mut Outgoing,
)
    requires { egress.interface.now.hello ≤ longest_hello }
    ensures message { out.new ≡ outgoing_finite egress.entry.target route.now.source.prefix (record { router = route.now.source.router; distance = route.now.distance }) egress.entry.interface.now core.now (address_of (family_of route.now.source.prefix.addr) egress.entry.interface.now) }
    ensures room { HasRoom core.now out.new }
{
    let Some(next_hop) = address_of(route.source.prefix.family(), egress.interface) else {
        *out = Outgoing::Nothing;
        return;
    };
    if is_source_too_many(core, &route.source, cursor) {
        *out = Outgoing::LeftOut;
        return;
    }
    update_message(egress, route, next_hop, out);
}

/// An Update of the prefix, or its retraction (RFC 8966, section 3.7).
fn outgoing_update(
    core: &Core,
    egress: Egress<'_>,
    prefix: Prefix,
    cursor: &mut Cursor,
    out: &mut Outgoing,
)
    requires { egress.interface.now.hello ≤ longest_hello }
    ensures message { out.new ≡ outgoing_update egress.entry.target prefix core.now egress.entry.interface.now }
    ensures room { HasRoom core.now out.new }
{
    if core.announces(&prefix) {
        let router = core.router;
        let distance = Distance {
            seqno: core.seqno,
            metric: Metric(0),
        };
        let source = Source { prefix, router };
        let route = Advertisement { source, distance };
        outgoing_finite(core, egress, &route, cursor, out);
        return;
    }
    match core.routes.selected_near(&prefix, cursor) {
        Some(Selection { peer, entry }) => {
            let metric = entry.distance.metric.add(core.cost(&peer));
            let seqno = entry.distance.seqno;
            let router = entry.router;
            let route = Advertisement {
                source: Source { prefix, router },
                distance: Distance { seqno, metric },
            };
            outgoing_finite(core, egress, &route, cursor, out);
        }
        None => retraction_message(egress, prefix, out),
    }
}

/// An IHU about the neighbour, if it is one (RFC 8966, section 3.4.2).
fn outgoing_ihu(core: &Core, peer: Peer, out: &mut Outgoing)
    ensures message { out.new ≡ (if is_neighbour peer core.now then outgoing_over (outgoing_ihu peer core.now) (interface_at peer.iface core.now) else outgoings.Nothing) }
    ensures room { HasRoom core.now out.new }
{
    if !core.is_neighbour(&peer) {
        *out = Outgoing::Nothing;
        return;
    }
    match interface_entry(core, peer.iface) {
        Some(interface) => ihu_message(peer, core.rxcost(&peer), &interface, out),
        None => *out = Outgoing::Nothing,
    }
}

/// A message for the neighbour alone, if its interface exists.
fn outgoing_to_peer(core: &Core, peer: Peer, message: Message, out: &mut Outgoing)
    requires { HasRoomFor core.now message }
    ensures message { out.new ≡ outgoing_over (λ _. outgoings.Message (to_peer peer) message) (interface_at peer.iface core.now) }
    ensures room { HasRoom core.now out.new }
{
    *out = match core.interfaces.get(peer.iface) {
        Some(_) => Outgoing::Message(to_peer(peer), message),
        None => Outgoing::Nothing,
    };
}

/// The target of an Update, or of a retraction, that is certainly sent: its interface has an
/// address of the prefix's family, and the source table has room. `None` means that one of these
/// isn't so, or that the item is of another kind.
#[tactic(auto, using(crate::proofs::SentUpdates::certain_message))]
pub fn certain_target(core: &Core, item: &Item) -> Option<Target>
    ensures message { IfSome result (λ target. IsMessageTo target (outgoing core.now item.now)) }
    ensures found { (target : Target) (prefix : PrefixValue) → item.now ≡ Item.Update target prefix → IsCertainlySent target prefix core.now → result ≡ Some target }
{
    let Item::Update { target, prefix } = *item else {
        return None;
    };
    if core.sources.len() == SOURCE_PLACES {
        return None;
    }
    let interface = interface_entry(core, target.iface)?;
    let _ = address_of(prefix.family(), &interface)?;
    Some(target)
}

/// Writes the message that the item means now. The searches begin at the cursor.
#[tactic(auto, unfolding(babel_state::specs::OutgoingMessages::outgoing))]
pub fn outgoing(core: &Core, item: &Item, cursor: &mut Cursor, out: &mut Outgoing)
    ensures message { out.new ≡ outgoing core.now item.now }
    ensures room { HasRoom core.now out.new }
{
    match *item {
        Item::Hello { iface } => match interface_entry(core, iface) {
            Some(interface) => hello_message(iface, &interface, out),
            None => *out = Outgoing::Nothing,
        },
        Item::Ihu { peer } => outgoing_ihu(core, peer, out),
        Item::Update { target, prefix } => match core.interfaces.entry(target.iface) {
            Some(interface) => {
                outgoing_update(core, Egress { target, interface }, prefix, cursor, out);
            }
            None => *out = Outgoing::Nothing,
        },
        // RFC 8966, section 3.8.1.2.
        Item::Request {
            peer,
            source,
            seqno,
            hops,
        } => {
            let message = Message::SeqnoRequest {
                prefix: source.prefix,
                router: source.router,
                seqno,
                hops,
            };
            outgoing_to_peer(core, peer, message, out);
        }
        // RFC 8966, section 3.3.
        Item::Ack { peer, opaque } => outgoing_to_peer(core, peer, Message::Ack { opaque }, out),
    }
}
