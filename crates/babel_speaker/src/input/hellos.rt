//! Hellos and IHUs (RFC 8966, section 3.4).

ghost use Rattle.std.specs.Prelude.{◌≡◌, ◌≢◌, ◌↔◌, ℕ, true, IsTrue, IsFalse, IsErr, IfOk, OnOk, OnErr};
ghost use Rattle.babel_link.specs.declared.changes.LinkCost.TheVariants.{Kept};
ghost use Rattle.babel_link.specs.Neighbours.{hello_verdict, cost_of};
ghost use Rattle.babel_state.specs.Hellos.{is_for_interface, is_neighbour_too_many, forgets_flushed, hears, handle_hello, handle_ihu};
ghost use Rattle.babel_state.specs.CurrentSelections.{AreCurrent};
ghost use Rattle.babel_state.specs.KeptRoutes.{KeepsRoutes};
ghost use Rattle.babel_state.specs.SettledLaws.{with_ihu};
ghost use Rattle.babel_speaker.specs.LinkChanges.{AreOthersCurrent};
ghost use Rattle.babel_speaker.specs.declared.input.losses.Loss.TheVariants.{Neighbour};
ghost use Rattle.babel_speaker.specs.declared.tables.link_costs.LinkChange.TheVariants.{Nothing, Cost, Routes};
ghost use Rattle.babel_speaker.specs.Losses.{is_lost, AreCurrentUnless};

use crate::hints::Hints;
use crate::input::records::{Arrival, ReceivedHello, ReceivedIhu};
use crate::state::Core;
use crate::tables::LinkChange;
use crate::tables::addresses::is_own_address;
use babel_link::{Full, Heard, HelloEffect, LinkCost};
use babel_state::Verdict;
use babel_value::{Addr, HelloKind, Metric, Peer};

/// What changed if nothing but the cost of a link may have.
fn change_of(cost: LinkCost) -> LinkChange
    ensures nothing { (result ≡ Nothing) ↔ (cost ≡ Kept) }
    ensures no_routes { result ≢ Routes }
{
    match cost {
        LinkCost::Kept => LinkChange::Nothing,
        LinkCost::Changed => LinkChange::Cost,
    }
}

impl Core {
    /// Whether an IHU is for this speaker: it is for all, or for an own address of the interface
    /// over which it came.
    pub(crate) fn is_for_interface(&self, iface: u8, to: &Option<Addr>) -> bool
        ensures { result ≡ is_for_interface iface to.now self.now }
    {
        let Some(addr) = to else {
            return true;
        };
        match self.interfaces.entry(iface) {
            Some(interface) => is_own_address(addr, interface),
            None => false,
        }
    }

    /// Removes the routes of a neighbour that a Hello flushes.
    pub(crate) fn forget_flushed(&mut self, heard: Heard, peer: &Peer)
        ensures { self.new ≡ forgets_flushed heard peer.now self.old }
    {
        match heard {
            Heard::Kept => {}
            Heard::Flush => self.routes.forget(peer),
        }
    }

    /// Takes a Hello into the neighbour table, and removes the routes of a neighbour that it
    /// flushes.
    fn take_hello(&mut self, arrival: &Arrival, hello: &ReceivedHello) -> Result<HelloEffect, Full>
        ensures full { IsErr result ↔ (is_neighbour_too_many arrival.now.peer self.old ≡ true) }
        ensures ok { OnOk result (self.new ≡ hears arrival.now.time arrival.now.peer hello.now.unicast hello.now.seqno hello.now.interval self.old) }
        ensures err { OnErr result (self.new ≡ self.old) }
        ensures heard { IfOk result (λ effect. effect.heard ≡ hello_verdict arrival.now.peer hello.now.unicast hello.now.seqno self.old.neighbours) }
        ensures kept { IfOk result (λ effect. effect.cost ≡ Kept → (nominal : ℕ) → cost_of arrival.now.peer nominal self.new.neighbours ≡ cost_of arrival.now.peer nominal self.old.neighbours) }
    {
        let (now, peer) = (arrival.time, &arrival.peer);
        let kind = HelloKind::of(hello.unicast);
        match self
            .neighbours
            .hear(now, *peer, kind, hello.seqno, hello.interval)
        {
            Ok(effect) => {
                self.forget_flushed(effect.heard, peer);
                Ok(effect)
            }
            Err(full) => Err(full),
        }
    }

    /// The same. Returns what changed: if nothing, all selections that were current are so, and the
    /// selected routes are reported as before; if the cost of the link to the peer alone, those of
    /// the prefixes to which the peer has no route; if its routes, those of other neighbours.
    fn hear(&mut self, arrival: &Arrival, hello: &ReceivedHello) -> Result<LinkChange, Full>
        ensures full { IsErr result ↔ (is_neighbour_too_many arrival.now.peer self.old ≡ true) }
        ensures ok { OnOk result (self.new ≡ hears arrival.now.time arrival.now.peer hello.now.unicast hello.now.seqno hello.now.interval self.old) }
        ensures err { OnErr result (self.new ≡ self.old) }
        ensures nothing { IfOk result (λ change. change ≡ Nothing → AreCurrent self.old → AreCurrent self.new) }
        ensures kept { IfOk result (λ change. change ≡ Nothing → KeepsRoutes self.old self.new) }
        ensures cost { IfOk result (λ change. change ≡ Cost → AreCurrent self.old → AreOthersCurrent arrival.now.peer self.new) }
        ensures routes { IfOk result (λ change. change ≡ Routes → AreCurrent self.old → AreCurrentUnless (is_lost (Neighbour arrival.now.peer) self.new) self.new) }
    {
        match self.take_hello(arrival, hello) {
            Ok(effect) => match effect.heard {
                Heard::Kept => Ok(change_of(effect.cost)),
                Heard::Flush => Ok(LinkChange::Routes),
            },
            Err(full) => Err(full),
        }
    }

    /// Handles a Hello (RFC 8966, section 3.4.1). A cost may change by it; then routes are selected
    /// again. All selections are current then, and the speaker is settled. If the hints aren't
    /// `changed` then, the selected routes are reported as before.
    #[tactic(auto, unfolding(babel_state::specs::Hellos::handle_hello))]
    pub fn handle_hello(
        &mut self,
        arrival: &Arrival,
        hello: &ReceivedHello,
        hints: &mut Hints,
    ) -> Verdict
        requires settled { IsTrue hints.old.settled → AreCurrent self.old }
        ensures state { (self.new, result) ≡ handle_hello arrival.now.time arrival.now.peer hello.now.unicast hello.now.seqno hello.now.interval self.old }
        ensures current { AreCurrent self.new }
        ensures kept { IsFalse hints.new.changed → KeepsRoutes self.old self.new }
    {
        let now = arrival.time;
        match self.hear(arrival, hello) {
            Ok(change) => {
                hints.changed = self.reselect_link(change, now, &arrival.peer, hints);
                Verdict::Taken
            }
            Err(_) => {
                hints.changed = self.reselect_unless(now, hints);
                Verdict::TableFull
            }
        }
    }

    /// Takes an IHU into the neighbour table. Returns what it changed of the cost of the peer's
    /// link.
    #[tactic(auto, unfolding(babel_state::specs::Hellos::handle_ihu))]
    fn take_ihu(&mut self, now: u64, peer: &Peer, rxcost: Metric, interval: u16) -> LinkCost
        ensures state { self.new ≡ with_ihu now peer.now rxcost interval self.old }
        ensures kept { result ≡ Kept → (nominal : ℕ) → cost_of peer.now nominal self.new.neighbours ≡ cost_of peer.now nominal self.old.neighbours }
    {
        self.neighbours.hear_ihu(now, *peer, rxcost, interval)
    }

    /// The same. Returns what changed, as `hear`.
    fn hear_ihu(&mut self, now: u64, peer: &Peer, rxcost: Metric, interval: u16) -> LinkChange
        ensures state { self.new ≡ with_ihu now peer.now rxcost interval self.old }
        ensures nothing { result ≡ Nothing → AreCurrent self.old → AreCurrent self.new }
        ensures kept { result ≡ Nothing → KeepsRoutes self.old self.new }
        ensures cost { AreCurrent self.old → AreOthersCurrent peer.now self.new }
        ensures no_routes { result ≢ Routes }
    {
        change_of(self.take_ihu(now, peer, rxcost, interval))
    }

    /// Handles an IHU (RFC 8966, section 3.4.2). A cost may change by it; then routes are selected
    /// again. After an IHU for this speaker all selections are current, and the speaker is settled.
    #[tactic(auto, unfolding(babel_state::specs::Hellos::handle_ihu))]
    pub fn handle_ihu(
        &mut self,
        arrival: &Arrival,
        ihu: &ReceivedIhu<'_>,
        hints: &mut Hints,
    ) -> Verdict
        requires settled { IsTrue hints.old.settled → AreCurrent self.old }
        ensures state { (self.new, result) ≡ handle_ihu arrival.now.time arrival.now.peer ihu.now.to.now ihu.now.rxcost.now ihu.now.interval.now self.old }
        ensures current { IsFalse hints.old.settled → IsTrue hints.new.settled → AreCurrent self.new }
        ensures kept { IsFalse hints.new.changed → KeepsRoutes self.old self.new }
    {
        let peer = &arrival.peer;
        if !self.is_for_interface(peer.iface, ihu.to) {
            return Verdict::OtherAddress;
        }
        let change = self.hear_ihu(arrival.time, peer, *ihu.rxcost, *ihu.interval);
        hints.changed = self.reselect_link(change, arrival.time, peer, hints);
        Verdict::Taken
    }
}
