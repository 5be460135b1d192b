//! The step of a speaker for each message of a datagram (RFC 8966, sections 3.3 to 3.8).
//!
//! IHUs and Updates come in numbers: an IHU for each node of a link, and an Update for each prefix.
//! So each of the two has a way of its own, without what only other messages need, which are
//! handled by a call.

ghost use Rattle.std.specs.Prelude.{◌≡◌, ℕ, true, false, IsTrue, IsFalse};
ghost use Rattle.babel_state.specs.CurrentSelections.{AreCurrent};
ghost use Rattle.babel_state.specs.KeptRoutes.{KeepsRoutes};
ghost use Rattle.babel_state.specs.Messages.{handle_from_neighbour, handle_message, handle_content};
ghost use Rattle.babel_state.specs.State.{is_neighbour};
ghost use Rattle.babel_state.specs.Updates.{handle_retraction};
ghost use Rattle.babel_speaker.specs.Messages.{is_frequent, is_ihu};

use crate::hints::Hints;
use crate::input::records::{Arrival, ReceivedHello, ReceivedIhu};
use crate::state::Core;
use crate::tables::SeqnoRequest;
use babel_choice::ReceivedUpdate;
use babel_message::{Content, Message};
use babel_state::{Item, Verdict};
use babel_value::{Distance, Peer, Prefix, Source};

/// Whether it is an IHU for another node, as most are in a full mesh. It changes nothing.
#[inline(always)]
#[tactic(auto, unfolding(babel_state::specs::Messages::handle_message, babel_state::specs::Hellos::handle_ihu))]
pub(crate) fn is_for_other_node(core: &Core, peer: &Peer, content: &Content) -> bool
    ensures known { IsTrue result → (now : ℕ) → is_neighbour peer.now core.now ≡ true → (core.now, Verdict.OtherAddress) ≡ handle_content now peer.now content.now core.now }
    ensures unknown { IsTrue result → (now : ℕ) → is_neighbour peer.now core.now ≡ false → (core.now, Verdict.UnknownNeighbour) ≡ handle_content now peer.now content.now core.now }
{
    match content {
        Content::Message(Message::Ihu { to, .. }) => !core.is_for_interface(peer.iface, to),
        _ => false,
    }
}

/// Handles an IHU (RFC 8966, section 3.4.2).
#[inline(always)]
#[tactic(auto, unfolding(babel_state::specs::Messages::handle_message))]
fn handle_any_ihu(
    core: &mut Core,
    arrival: &Arrival,
    ihu: &ReceivedIhu<'_>,
    hints: &mut Hints,
) -> Verdict
    requires settled { IsTrue hints.old.settled → AreCurrent core.old }
    ensures state { (core.new, result) ≡ handle_message arrival.now.time arrival.now.peer (Message.Ihu ihu.now.to.now ihu.now.rxcost.now ihu.now.interval.now) core.old }
    ensures current { IsFalse hints.old.settled → IsTrue hints.new.settled → AreCurrent core.new }
    ensures kept { IsFalse hints.new.changed → KeepsRoutes core.old core.new }
    ensures stays { IsFalse hints.new.changed → IsFalse hints.old.changed }
{
    if !core.is_neighbour(&arrival.peer) {
        return Verdict::UnknownNeighbour;
    }
    let changed = hints.changed;
    let verdict = core.handle_ihu(arrival, ihu, hints);
    hints.changed = changed || hints.changed;
    verdict
}

/// Whether an update with this verdict was looked for in the tables: it is there, or its place was
/// found taken.
fn is_placed(verdict: &Verdict) -> bool {
    matches!(
        verdict,
        Verdict::Taken | Verdict::Unfeasible(_) | Verdict::TableFull
    )
}

/// Handles an Update (RFC 8966, section 3.5.3). It is looked for where it is likely to be.
#[inline(always)]
#[tactic(auto, unfolding(babel_state::specs::Messages::handle_message))]
fn handle_any_update(
    core: &mut Core,
    now: u64,
    update: &ReceivedUpdate,
    hints: &mut Hints,
) -> Verdict
    requires settled { IsTrue hints.old.settled → AreCurrent core.old }
    ensures settled { hints.new.settled ≡ hints.old.settled }
    ensures state { (core.new, result) ≡ handle_message now update.now.peer (Message.Update update.now.source.prefix update.now.source.router update.now.next_hop update.now.distance.seqno update.now.distance.metric update.now.interval) core.old }
    ensures kept { IsFalse hints.new.changed → KeepsRoutes core.old core.new }
    ensures stays { IsFalse hints.new.changed → IsFalse hints.old.changed }
{
    if !core.is_neighbour(&update.peer) {
        return Verdict::UnknownNeighbour;
    }
    let changed = hints.changed;
    hints.changed = false;
    hints.cursor = hints.trail.next();
    let verdict = core.handle_update(now, update, hints);
    if is_placed(&verdict) {
        hints.trail.push_copied(&hints.cursor);
    }
    hints.changed = changed || hints.changed;
    verdict
}

/// Handles a retraction of a prefix of a neighbour (RFC 8966, section 3.5.3). It is looked for as
/// an Update is.
fn handle_retraction(
    core: &mut Core,
    arrival: &Arrival,
    prefix: &Prefix,
    hints: &mut Hints,
) -> Verdict
    requires settled { IsTrue hints.old.settled → AreCurrent core.old }
    ensures settled { hints.new.settled ≡ hints.old.settled }
    ensures state { (core.new, result) ≡ handle_retraction arrival.now.time arrival.now.peer prefix.now core.old }
    ensures kept { IsFalse hints.new.changed → KeepsRoutes core.old core.new }
{
    hints.cursor = hints.trail.next();
    let verdict = core.handle_retraction(arrival.time, &arrival.peer, prefix, hints);
    if is_placed(&verdict) {
        hints.trail.push_copied(&hints.cursor);
    }
    verdict
}

/// Handles a message of a neighbour that is none of those that come in numbers. If the hints aren't
/// `changed` then, the selected routes are reported as before. They always are after a retraction
/// of all routes. A request leaves them as they are.
fn handle_from_neighbour(
    core: &mut Core,
    arrival: &Arrival,
    message: &Message,
    hints: &mut Hints,
) -> Verdict
    requires settled { IsTrue hints.old.settled → AreCurrent core.old }
    requires other { is_frequent message.now ≡ false }
    ensures state { (core.new, result) ≡ handle_from_neighbour arrival.now.time arrival.now.peer message.now core.old }
    ensures current { IsFalse hints.old.settled → IsTrue hints.new.settled → AreCurrent core.new }
    ensures kept { IsFalse hints.new.changed → KeepsRoutes core.old core.new }
{
    match message {
        Message::Retraction { prefix, .. } => handle_retraction(core, arrival, prefix, hints),
        Message::RetractAll { .. } => {
            let verdict = core.handle_retract_all(arrival.time, &arrival.peer, hints);
            hints.changed = true;
            verdict
        }
        Message::RouteRequest { prefix } => core.handle_route_request(&arrival.peer, prefix),
        Message::DumpRequest => core.handle_dump_request(&arrival.peer),
        Message::SeqnoRequest {
            prefix,
            router,
            seqno,
            hops,
        } => {
            let request = SeqnoRequest {
                source: Source {
                    prefix: *prefix,
                    router: *router,
                },
                seqno: *seqno,
                hops: *hops,
            };
            core.handle_seqno_request(arrival, &request)
        }
        Message::AckRequest { .. }
        | Message::Ack { .. }
        | Message::Hello { .. }
        | Message::Ihu { .. }
        | Message::Update { .. } => Verdict::Taken,
    }
}

/// Handles a message that is none of those that come in numbers. A sender that is no neighbour may
/// send Hellos and Acknowledgment Requests (RFC 8966, section 3.3).
#[tactic(auto, unfolding(babel_state::specs::Messages::handle_message))]
fn handle_other(core: &mut Core, arrival: &Arrival, message: &Message, hints: &mut Hints) -> Verdict
    requires settled { IsTrue hints.old.settled → AreCurrent core.old }
    requires other { is_frequent message.now ≡ false }
    ensures state { (core.new, result) ≡ handle_message arrival.now.time arrival.now.peer message.now core.old }
    ensures current { IsFalse hints.old.settled → IsTrue hints.new.settled → AreCurrent core.new }
    ensures kept { IsFalse hints.new.changed → KeepsRoutes core.old core.new }
{
    match message {
        Message::AckRequest { opaque, .. } => {
            core.queue(Item::Ack {
                peer: arrival.peer,
                opaque: *opaque,
            });
            Verdict::Taken
        }
        Message::Hello {
            unicast,
            seqno,
            interval,
        } => {
            let hello = ReceivedHello {
                unicast: *unicast,
                seqno: *seqno,
                interval: *interval,
            };
            core.handle_hello(arrival, &hello, hints)
        }
        _ => {
            if core.is_neighbour(&arrival.peer) {
                handle_from_neighbour(core, arrival, message, hints)
            } else {
                Verdict::UnknownNeighbour
            }
        }
    }
}

/// The same. If the hints are `changed` before, they are so then.
#[inline(never)]
fn handle_any_other(
    core: &mut Core,
    arrival: &Arrival,
    message: &Message,
    hints: &mut Hints,
) -> Verdict
    requires settled { IsTrue hints.old.settled → AreCurrent core.old }
    requires other { is_frequent message.now ≡ false }
    ensures state { (core.new, result) ≡ handle_message arrival.now.time arrival.now.peer message.now core.old }
    ensures current { IsFalse hints.old.settled → IsTrue hints.new.settled → AreCurrent core.new }
    ensures kept { IsFalse hints.new.changed → KeepsRoutes core.old core.new }
    ensures stays { IsFalse hints.new.changed → IsFalse hints.old.changed }
{
    let changed = hints.changed;
    hints.changed = false;
    let verdict = handle_other(core, arrival, message, hints);
    hints.changed = changed || hints.changed;
    verdict
}

/// Handles a message that is no IHU. If the hints are `changed` before, they are so then.
#[inline(always)]
fn handle_next(core: &mut Core, arrival: &Arrival, message: &Message, hints: &mut Hints) -> Verdict
    requires settled { IsTrue hints.old.settled → AreCurrent core.old }
    requires other { is_ihu message.now ≡ false }
    ensures state { (core.new, result) ≡ handle_message arrival.now.time arrival.now.peer message.now core.old }
    ensures current { IsFalse hints.old.settled → IsTrue hints.new.settled → AreCurrent core.new }
    ensures kept { IsFalse hints.new.changed → KeepsRoutes core.old core.new }
    ensures stays { IsFalse hints.new.changed → IsFalse hints.old.changed }
{
    match message {
        Message::Update {
            prefix,
            router,
            next_hop,
            seqno,
            metric,
            interval,
        } => {
            let update = ReceivedUpdate {
                peer: arrival.peer,
                source: Source {
                    prefix: *prefix,
                    router: *router,
                },
                next_hop: *next_hop,
                distance: Distance {
                    seqno: *seqno,
                    metric: *metric,
                },
                interval: *interval,
            };
            handle_any_update(core, arrival.time, &update, hints)
        }
        Message::AckRequest { .. }
        | Message::Ack { .. }
        | Message::Hello { .. }
        | Message::Retraction { .. }
        | Message::RetractAll { .. }
        | Message::RouteRequest { .. }
        | Message::DumpRequest
        | Message::SeqnoRequest { .. } => handle_any_other(core, arrival, message, hints),
        Message::Ihu { .. } => Verdict::Taken,
    }
}

/// Handles a message. If the hints are `changed` before, they are so then.
#[inline(always)]
fn handle_message(
    core: &mut Core,
    arrival: &Arrival,
    message: &Message,
    hints: &mut Hints,
) -> Verdict
    requires settled { IsTrue hints.old.settled → AreCurrent core.old }
    ensures state { (core.new, result) ≡ handle_message arrival.now.time arrival.now.peer message.now core.old }
    ensures current { IsFalse hints.old.settled → IsTrue hints.new.settled → AreCurrent core.new }
    ensures kept { IsFalse hints.new.changed → KeepsRoutes core.old core.new }
    ensures stays { IsFalse hints.new.changed → IsFalse hints.old.changed }
{
    match message {
        Message::Ihu {
            to,
            rxcost,
            interval,
        } => {
            let ihu = ReceivedIhu {
                to,
                rxcost,
                interval,
            };
            handle_any_ihu(core, arrival, &ihu, hints)
        }
        Message::AckRequest { .. }
        | Message::Ack { .. }
        | Message::Hello { .. }
        | Message::Update { .. }
        | Message::Retraction { .. }
        | Message::RetractAll { .. }
        | Message::RouteRequest { .. }
        | Message::DumpRequest
        | Message::SeqnoRequest { .. } => handle_next(core, arrival, message, hints),
    }
}

/// Handles one of the contents of a datagram. All selections stay current if they are. After a
/// Hello, or an IHU for this speaker, they are current, and the speaker is settled. If the hints
/// aren't `changed` then, the selected routes are reported as before; if they are before, they are
/// so then.
#[inline(always)]
#[tactic(auto, using(crate::proofs::SettledMessages::content_current))]
pub(crate) fn handle_content(
    core: &mut Core,
    arrival: &Arrival,
    content: &Content,
    hints: &mut Hints,
) -> Verdict
    requires settled { IsTrue hints.old.settled → AreCurrent core.old }
    ensures state { (core.new, result) ≡ handle_content arrival.now.time arrival.now.peer content.now core.old }
    ensures current { IsTrue hints.new.settled → AreCurrent core.new }
    ensures kept { IsFalse hints.new.changed → KeepsRoutes core.old core.new }
    ensures stays { IsFalse hints.new.changed → IsFalse hints.old.changed }
{
    core.routes_are_in_order();
    match content {
        Content::Message(message) => handle_message(core, arrival, message, hints),
        Content::State => Verdict::State,
        Content::Ignored(reason) => Verdict::Ignored(*reason),
    }
}
