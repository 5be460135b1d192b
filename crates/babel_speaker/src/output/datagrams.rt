//! The next datagram (RFC 8966, section 4): pending items become messages one by one, from the
//! oldest on, as long as they go to the same target and fit.

ghost use Rattle.std.specs.Prelude.{◌≡◌, ◌↔◌, ℕ, None, List, [], true, Some, IfSome, IsTrue, IsFalse, IsNone, if◌then◌else◌};
ghost use Rattle.std.specs.Bool.{OnFalse};
ghost use Rattle.babel_message.specs.declared.messages.Message.{Message};
ghost use Rattle.babel_build.specs.Built.{Built, HasEncoded};
ghost use Rattle.babel_state.specs.Addresses.{transport_at};
ghost use Rattle.babel_state.specs.CurrentSelections.{AreCurrent};
ghost use Rattle.babel_state.specs.OutgoingMessages.{outgoing};
ghost use Rattle.babel_state.specs.NextDatagram.{Fits, draft_with, drafted};
ghost use Rattle.babel_state.specs.QueueLaws.{is_silent};
ghost use Rattle.babel_state.specs.Restarts.{snapshot_of};
ghost use Rattle.babel_speaker.specs.SentMessages.{HasRoomFor, no_draft};
ghost use Rattle.babel_speaker.specs.Sending.{HaveTransports, first_message, with_outgoing, is_encodable_outgoing, are_encodable, built_of, fits_at, draft_to, MeansFrom, IsBuiltFrom, IsFilled, draft_at};
ghost use Rattle.babel_speaker.specs.Versions.{KeepsSnapshot};

use crate::hints::Hints;
use crate::output::records::Departure;
use crate::state::Core;
use crate::tables::is_same_target;
use arrayvec::ArrayVec;
use babel_build::Builder;
use babel_choice::Cursor;
use babel_message::Message;
use babel_state::laws::items_mean_messages;
use babel_state::{Item, Outgoing, Target};
use babel_tlv::DATAGRAM_LEN;

/// Removes the oldest items up to the first that means a message, and returns that message and
/// its target. `None`: no item is left.
#[tactic(auto, unfolding(babel_state::specs::NextDatagram::draft_with), using(crate::proofs::Drafts::none_first, crate::proofs::SettledSends::removed_current, crate::proofs::SettledSends::left_out_current, crate::proofs::Snapshots::saved_itself, crate::proofs::Snapshots::removed_saved, crate::proofs::Snapshots::left_out_saved))]
fn skip_silent(core: &mut Core, cursor: &mut Cursor) -> Option<(Target, Message)>
    ensures message { result ≡ first_message core.new core.new.pending.items }
    ensures room { IfSome result (λ m. HasRoomFor core.new m.1) }
    ensures none { IsNone result → core.new.pending.items ≡ [] }
    ensures draft { (now : ℕ) (fits : Fits) → drafted now fits core.new.pending.items (no_draft core.new) ≡ drafted now fits core.old.pending.items (no_draft core.old) }
    ensures interfaces { core.new.interfaces ≡ core.old.interfaces }
    ensures current { AreCurrent core.old → AreCurrent core.new }
    ensures saved { KeepsSnapshot core.old core.new }
{
    while let Some(item) = crate::output::items::first_item(core) {
        let mut out = Outgoing::Nothing;
        crate::output::messages::outgoing(core, &item, cursor, &mut out);
        match out {
            Outgoing::Message(target, message) => return Some((target, message)),
            Outgoing::LeftOut => crate::output::items::leave_out(core),
            Outgoing::Nothing => {}
        }
        crate::output::items::remove_first_item(core);
    }
    None
}

/// Whether the item's message certainly goes to another target.
#[tactic(auto, using(crate::proofs::Drafts::other_target))]
fn goes_elsewhere(core: &Core, item: &Item, target: &Target) -> bool
    ensures { (now : ℕ) (b : Built) (ms : List Message) → IsTrue result → draft_with now (fits_at b) (draft_to target.now core.now ms) (outgoing core.now item.now) ≡ None }
{
    match crate::output::messages::certain_target(core, item) {
        Some(to) => !is_same_target(target, &to),
        None => false,
    }
}

/// Adds the message of an item to the datagram. False: it has another target or doesn't fit, and
/// nothing has changed.
#[tactic(auto, unfolding(babel_state::specs::NextDatagram::draft_with), using(babel_state::proofs::Targets::same_target, crate::proofs::Drafts::built_more, crate::proofs::SettledSends::left_out_current, crate::proofs::Snapshots::left_out_snapshot))]
fn add_item(
    core: &mut Core,
    departure: Departure,
    builder: &mut Builder,
    item: &Item,
    hints: &mut Hints,
) -> bool
    requires settled { IsTrue hints.old.settled → AreCurrent core.old }
    ensures draft { (b : Built) (ms : List Message) → builder.old ≡ built_of b ms → draft_with departure.now (fits_at b) (draft_to departure.target core.old ms) (outgoing core.old item.now) ≡ (if result then Some (draft_to departure.target core.new (with_outgoing ms (outgoing core.old item.now))) else None) }
    ensures built { (b : Built) (ms : List Message) → builder.old ≡ built_of b ms → IsTrue result → builder.new ≡ built_of b (with_outgoing ms (outgoing core.old item.now)) }
    ensures stays { OnFalse result ((core.new ≡ core.old) × (builder.new ≡ builder.old)) }
    ensures encoded { (ms : List Message) → HasEncoded builder.old ms → IsTrue result → is_encodable_outgoing (outgoing core.old item.now) ≡ true → HasEncoded builder.new (with_outgoing ms (outgoing core.old item.now)) }
    ensures pending { core.new.pending ≡ core.old.pending }
    ensures current { IsTrue hints.new.settled → AreCurrent core.new }
    ensures marked { IsFalse hints.new.lowered → IsFalse hints.old.lowered }
    ensures saved { IsFalse hints.new.lowered → snapshot_of core.new ≡ snapshot_of core.old }
{
    let target = departure.target;
    // The message is not needed to see that it goes elsewhere.
    if goes_elsewhere(core, item, &target) {
        return false;
    }
    let mut out = Outgoing::Nothing;
    crate::output::messages::outgoing(core, item, &mut hints.sending, &mut out);
    match out {
        Outgoing::Message(to, message) => {
            if !is_same_target(&target, &to) || !builder.add(&message) {
                return false;
            }
            let now = departure.now;
            let sent = Departure { now, target: to };
            crate::output::items::send_message(core, sent, &message, hints);
        }
        Outgoing::LeftOut => crate::output::items::leave_out(core),
        Outgoing::Nothing => {}
    }
    true
}

/// Fills the datagram with the messages of the oldest items, up to the first that goes to another
/// target or doesn't fit.
fn fill(core: &mut Core, departure: Departure, builder: &mut Builder, hints: &mut Hints)
    requires settled { IsTrue hints.old.settled → AreCurrent core.old }
    ensures current { IsTrue hints.new.settled → AreCurrent core.new }
    ensures marked { IsFalse hints.new.lowered → IsFalse hints.old.lowered }
    ensures saved { IsFalse hints.new.lowered → snapshot_of core.new ≡ snapshot_of core.old }
    ensures filled { (b : Built) (ms : List Message) → builder.old ≡ built_of b ms → IsFilled b ms departure.target (drafted departure.now (fits_at b) core.old.pending.items (draft_to departure.target core.old ms)) core.new builder.old builder.new }
{
    while let Some(item) = crate::output::items::first_item(core) {
        if !add_item(core, departure, builder, &item, hints) {
            return;
        }
        crate::output::items::remove_first_item(core);
    }
}

/// Takes the next datagram from the pending items: its octets are written to `out`, in place of
/// what was there, and its target is returned. `None`: no item means a message, and `out` is empty.
/// It is built in `builder`, whatever was there.
///
/// A settled speaker stays so unless an Update that is sent changes the feasibility distance of its
/// source. If it isn't `lowered` then, none did, and the snapshot is as before.
///
/// That each message can be encoded, and that each interface has an address to send from, follows
/// from the invariant of a speaker's state.
pub(crate) fn next_datagram(
    core: &mut Core,
    now: u64,
    out: &mut ArrayVec<u8, DATAGRAM_LEN>,
    builder: &mut Builder,
    hints: &mut Hints,
) -> Option<Target>
    requires settled { IsTrue hints.old.settled → AreCurrent core.old }
    ensures current { IsTrue hints.new.settled → AreCurrent core.new }
    ensures saved { IsFalse hints.new.lowered → snapshot_of core.new ≡ snapshot_of core.old }
    ensures state { core.new ≡ (draft_at now core.old).state }
    ensures target { result ≡ (draft_at now core.old).target }
    ensures octets { IfSome result (λ target. are_encodable (draft_at now core.old).messages ≡ true → MeansFrom (transport_at target.iface core.old) out.new.items (draft_at now core.old).messages) }
    ensures built { IfSome result (λ target. IsBuiltFrom (transport_at target.iface core.old) out.new.items (draft_at now core.old).messages) }
    ensures empty { IsNone result → out.new.items ≡ [] }
    ensures none { HaveTransports core.old → (IsNone result ↔ (is_silent core.old ≡ true)) }
{
    items_mean_messages();
    out.clear();
    let Some((target, message)) = skip_silent(core, &mut hints.sending) else {
        return None;
    };
    let Some(source) = crate::output::items::transport(core, target.iface) else {
        return None;
    };
    builder.begin(source);
    // The first message always fits.
    let _ = builder.add(&message);
    let departure = Departure { now, target };
    crate::output::items::send_message(core, departure, &message, hints);
    crate::output::items::remove_first_item(core);
    fill(core, departure, builder, hints);
    builder.write_to(out);
    Some(target)
}
