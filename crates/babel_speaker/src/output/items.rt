//! What is needed of a state to send its pending items, and what a message that is sent changes
//! (RFC 8966, sections 3.4.1 and 3.7.3).

ghost use Rattle.std.specs.Prelude.{◌≡◌, None, true, Some, slice_get, IsTrue, IsFalse};
ghost use Rattle.std.specs.FinMap.{is_sorted};
ghost use Rattle.babel_value.specs.Orders.{source_cmp};
ghost use Rattle.babel_message.specs.declared.messages.Message.{Message};
ghost use Rattle.babel_state.specs.Addresses.{transport_at};
ghost use Rattle.babel_state.specs.CurrentSelections.{AreCurrent};
ghost use Rattle.babel_state.specs.Grouping.{items_grouped};
ghost use Rattle.babel_state.specs.State.{with_interface};
ghost use Rattle.babel_state.specs.NextDatagram.{next_hello, left_out_more, after_message};
ghost use Rattle.babel_state.specs.Restarts.{snapshot_of};
ghost use Rattle.babel_speaker.specs.SentMessages.{HasRoomFor, changes_a_pair, is_named_current, without_front};

use crate::hints::Hints;
use crate::output::messages::interface_entry;
use crate::output::records::Departure;
use crate::state::Core;
use crate::tables::LinkCosts;
use crate::tables::addresses::address_of;
use babel_choice::Cursor;
use babel_message::Message;
use babel_state::Item;
use babel_value::{Addr, Distance, Source};

/// The own address from which datagrams of the interface are sent, if the interface exists.
pub fn transport(core: &Core, iface: u8) -> Option<Addr>
    ensures { result ≡ transport_at iface core.now }
{
    let interface = core.interfaces.get(iface)?;
    address_of(interface.transport, &interface)
}

/// Uses up the seqno of the interface's next Hello (RFC 8966, section 3.4.1).
fn use_hello_seqno(core: &mut Core, iface: u8)
    ensures state { core.new ≡ with_interface iface next_hello core.old }
{
    if let Some(mut interface) = interface_entry(core, iface) {
        interface.hello_seqno = interface.hello_seqno.next();
        core.interfaces.set(iface, interface);
    }
}

/// The changes by a message that is sent: a Hello uses up its seqno, and an Update lowers the
/// feasibility distance of its source (RFC 8966, sections 3.4.1 and 3.7.3). Returns whether it
/// changed that distance.
#[tactic(auto, unfolding(babel_state::specs::NextDatagram::after_message))]
fn apply_message(
    core: &mut Core,
    departure: Departure,
    message: &Message,
    cursor: &mut Cursor,
) -> bool
    requires room { HasRoomFor core.old message.now }
    ensures state { core.new ≡ after_message departure.now departure.target message.now core.old }
    ensures pending { core.new.pending ≡ core.old.pending }
    ensures changes { result ≡ changes_a_pair message.now core.old }
    ensures in_order { IsTrue (is_sorted source_cmp core.old.sources) }
{
    let _count = core.sources.len();
    match *message {
        Message::Hello { .. } => {
            use_hello_seqno(core, departure.target.iface);
            false
        }
        Message::Update {
            prefix,
            router,
            seqno,
            metric,
            ..
        } => {
            let source = Source { prefix, router };
            let sent = Distance { seqno, metric };
            let near = &mut cursor.source;
            let lowered = core
                .sources
                .fetch_lower_near(departure.now, source, sent, near);
            // The next Update mostly is of the next source.
            *near = near.wrapping_add(1);
            match lowered {
                Ok(Some(pair)) => Distance { seqno, metric }.better(pair),
                // The source had no entry. The table isn't full.
                Ok(None) | Err(_) => true,
            }
        }
        Message::AckRequest { .. }
        | Message::Ack { .. }
        | Message::Ihu { .. }
        | Message::Retraction { .. }
        | Message::RetractAll { .. }
        | Message::RouteRequest { .. }
        | Message::DumpRequest
        | Message::SeqnoRequest { .. } => false,
    }
}

/// Whether the selection of the prefix that an Update names is current.
fn is_named_current(core: &Core, message: &Message, cursor: &mut Cursor) -> bool
    ensures { result ≡ is_named_current message.now core.now }
{
    match *message {
        Message::Update { prefix, .. } => {
            let origin = core.origin(&prefix);
            let costs = LinkCosts::new(&core.interfaces, &core.neighbours);
            core.routes
                .is_current_near(&prefix, origin, &core.sources, &costs, cursor)
        }
        _ => true,
    }
}

/// The same. If the speaker is settled, it stays so unless the message changes the feasibility
/// distance of its source and then the selection of its prefix is no longer current. If `lowered`
/// is `false` then, it was so, and the snapshot is as before.
#[tactic(auto, using(crate::proofs::SettledItems::sent_current, crate::proofs::SettledItems::sent_but_current, crate::proofs::SnapshotsSent::sent_snapshot))]
pub fn send_message(core: &mut Core, departure: Departure, message: &Message, hints: &mut Hints)
    requires room { HasRoomFor core.old message.now }
    requires settled { IsTrue hints.old.settled → AreCurrent core.old }
    ensures state { core.new ≡ after_message departure.now departure.target message.now core.old }
    ensures pending { core.new.pending ≡ core.old.pending }
    ensures current { IsTrue hints.new.settled → AreCurrent core.new }
    ensures marked { IsFalse hints.new.lowered → IsFalse hints.old.lowered }
    ensures saved { IsFalse hints.new.lowered → snapshot_of core.new ≡ snapshot_of core.old }
{
    if !apply_message(core, departure, message, &mut hints.sending) {
        return;
    }
    hints.lowered = true;
    if hints.settled && !is_named_current(core, message, &mut hints.sending) {
        hints.settled = false;
    }
}

/// An Update was left out, since the source table has no room.
pub fn leave_out(core: &mut Core)
    ensures { core.new ≡ left_out_more core.old }
{
    core.left_out = core.left_out.saturating_add(1);
}

/// The oldest pending item.
pub fn first_item(core: &Core) -> Option<Item>
    ensures { result ≡ slice_get core.now.pending.items 0 }
{
    core.pending.front()
}

/// Removes the oldest pending item.
pub fn remove_first_item(core: &mut Core)
    ensures { core.new ≡ without_front core.old }
{
    core.pending.pop();
}

/// Brings the pending items into groups that go to the same target (RFC 8966, section 4).
#[tactic(auto, unfolding(babel_state::specs::Grouping::items_grouped))]
pub fn group_items(core: &mut Core)
    ensures { core.new ≡ items_grouped core.old }
{
    core.pending.group();
}
