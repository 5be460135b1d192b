//! A datagram, from its octets to the notes of its TLVs.

ghost use Rattle.std.specs.Prelude.{true, ◌≡◌, ◌+◌, ◌≤◌, ◌<◌, ◌++◌, ◌∷◌, [], length, vec_len, vec_capacity, Ok, IfOk, IfErr, OnOk, OnErr, IsTrue, IsFalse};
ghost use Rattle.babel_state.specs.CurrentSelections.{AreCurrent};
ghost use Rattle.babel_state.specs.KeptRoutes.{KeepsRoutes};
ghost use Rattle.babel_state.specs.State.{is_neighbour};
ghost use Rattle.babel_state.specs.Messages.{arrival_of, handle_content, after_places, notes_of, IsRecvFault, Receives};

use crate::hints::Hints;
use crate::input::messages::{handle_content, is_for_other_node};
use crate::input::records::Arrival;
use crate::state::Core;
use babel_message::{Content, Placed, Reason, Refusal};
use babel_packet::decode_into;
use babel_state::{Note, RecvFault, Verdict};
use babel_value::Distance;
use std::alloc::Global;

/// Writes one more note into room that is there.
fn push_note(notes: &mut Vec<Note>, offset: usize, verdict: Verdict)
    requires { vec_len notes.old < vec_capacity notes.old }
    ensures notes { notes.new.items ≡ notes.old.items ++ record { offset = offset; verdict = verdict } ∷ [] }
    ensures len { vec_len notes.new ≡ vec_len notes.old + 1 }
    ensures capacity { vec_capacity notes.old ≤ vec_capacity notes.new }
{
    // The proof's plan for the write below needs these types named first.
    let _distance: Option<Distance> = None;
    let _reason: Option<Reason> = None;
    notes.push_reserved(Note { offset, verdict });
}

/// Handles one of the contents, as `handle_content`. `is_known` says that the sender is known to be
/// a neighbour, which isn't looked up again from one IHU for another node to the next.
#[inline(always)]
fn handle_place(
    core: &mut Core,
    arrival: &Arrival,
    content: &Content,
    hints: &mut Hints,
    is_known: &mut bool,
) -> Verdict
    requires settled { IsTrue hints.old.settled → AreCurrent core.old }
    requires known { IsTrue is_known.old → is_neighbour arrival.now.peer core.old ≡ true }
    ensures known { IsTrue is_known.new → is_neighbour arrival.now.peer core.new ≡ true }
    ensures state { (core.new, result) ≡ handle_content arrival.now.time arrival.now.peer content.now core.old }
    ensures current { IsTrue hints.new.settled → AreCurrent core.new }
    ensures kept { IsFalse hints.new.changed → KeepsRoutes core.old core.new }
    ensures stays { IsFalse hints.new.changed → IsFalse hints.old.changed }
{
    if !is_for_other_node(core, &arrival.peer, content) {
        *is_known = false;
        return handle_content(core, arrival, content, hints);
    }
    if !*is_known {
        *is_known = core.is_neighbour(&arrival.peer);
    }
    if *is_known {
        Verdict::OtherAddress
    } else {
        Verdict::UnknownNeighbour
    }
}

/// Handles the TLVs of a datagram, each wholly before the next, and writes a note for each.
fn handle_places(
    core: &mut Core,
    arrival: &Arrival,
    placed: &[Placed],
    notes: &mut Vec<Note>,
    hints: &mut Hints,
)
    requires settled { IsTrue hints.old.settled → AreCurrent core.old }
    requires room { vec_len notes.old + length placed.now ≤ vec_capacity notes.old }
    ensures state { core.new ≡ after_places arrival.now.time arrival.now.peer placed.now core.old }
    ensures notes { notes.new.items ≡ notes.old.items ++ notes_of arrival.now.time arrival.now.peer placed.now core.old }
    ensures current { IsTrue hints.new.settled → AreCurrent core.new }
    ensures kept { IsFalse hints.new.changed → KeepsRoutes core.old core.new }
{
    hints.trail.begin_from(&arrival.peer);
    let mut is_known = false;
    for place in placed {
        let verdict = handle_place(core, arrival, &place.content, hints, &mut is_known);
        push_note(notes, place.offset, verdict);
    }
}

/// Handles the TLVs of a datagram of the neighbour, and returns a note for each. The memory for the
/// notes is allocated before anything changes.
fn take_places(
    core: &mut Core,
    alloc: Global,
    arrival: &Arrival,
    placed: &[Placed],
    hints: &mut Hints,
) -> Result<Vec<Note>, RecvFault>
    requires settled { IsTrue hints.old.settled → AreCurrent core.old }
    ensures state { OnOk result (core.new ≡ after_places arrival.now.time arrival.now.peer placed.now core.old) }
    ensures notes { IfOk result (λ notes. notes.items ≡ notes_of arrival.now.time arrival.now.peer placed.now core.old) }
    ensures memory { IfErr result (λ fault. fault ≡ RecvFault.Refused Refusal.Memory) }
    ensures unchanged { OnErr result (core.new ≡ core.old) }
    ensures current { IsTrue hints.new.settled → AreCurrent core.new }
    ensures kept { IsFalse hints.new.changed → KeepsRoutes core.old core.new }
{
    let mut notes = match Vec::with_capacity(alloc, placed.len()) {
        Ok(notes) => notes,
        Err(_) => return Err(RecvFault::Refused(Refusal::Memory)),
    };
    handle_places(core, arrival, placed, &mut notes, hints);
    Ok(notes)
}

/// Takes a datagram. There is a note for each TLV. The memory is allocated before anything changes.
/// If the speaker is settled, it stays so, and it becomes so by a Hello or an IHU for it. If the
/// hints aren't `changed` then, the selected routes are reported as before.
pub(crate) fn receive(
    core: &mut Core,
    alloc: Global,
    arrival: &Arrival,
    octets: &[u8],
    hints: &mut Hints,
) -> Result<Vec<Note>, RecvFault>
    requires settled { IsTrue hints.old.settled → AreCurrent core.old }
    ensures ok { IfOk result (λ notes. Receives (arrival_of arrival.now.time arrival.now.peer octets.now) core.old core.new notes.items) }
    ensures refused { IfErr result (λ fault. IsRecvFault (arrival_of arrival.now.time arrival.now.peer octets.now) core.old fault) }
    ensures unchanged { OnErr result (core.new ≡ core.old) }
    ensures current { IsTrue hints.new.settled → AreCurrent core.new }
    ensures kept { IsFalse hints.new.changed → KeepsRoutes core.old core.new }
{
    let source = arrival.peer.addr;
    if let Some(fault) = core.source_fault(arrival.peer.iface, &source) {
        return Err(fault);
    }
    let mut placed = hints.take_list(alloc);
    if let Err(refusal) = decode_into(octets, source, &mut placed) {
        hints.keep_list(placed);
        return Err(RecvFault::Refused(refusal));
    }
    let notes = take_places(core, alloc, arrival, placed.as_slice(), hints);
    hints.keep_list(placed);
    notes
}

/// The same for a datagram that is decoded already.
pub(crate) fn receive_decoded(
    core: &mut Core,
    alloc: Global,
    arrival: &Arrival,
    placed: &[Placed],
    hints: &mut Hints,
) -> Result<Vec<Note>, RecvFault>
    requires settled { IsTrue hints.old.settled → AreCurrent core.old }
    ensures ok { IfOk result (λ notes. Receives (record { now = arrival.now.time; peer = arrival.now.peer; read = Ok placed.now }) core.old core.new notes.items) }
    ensures refused { IfErr result (λ fault. IsRecvFault (record { now = arrival.now.time; peer = arrival.now.peer; read = Ok placed.now }) core.old fault) }
    ensures unchanged { OnErr result (core.new ≡ core.old) }
    ensures current { IsTrue hints.new.settled → AreCurrent core.new }
    ensures kept { IsFalse hints.new.changed → KeepsRoutes core.old core.new }
{
    if let Some(fault) = core.source_fault(arrival.peer.iface, &arrival.peer.addr) {
        return Err(fault);
    }
    take_places(core, alloc, arrival, placed, hints)
}
