//! The speaker of a node, of which a network sees the state.

ghost use Rattle.std.specs.Prelude.{◌≡◌, ◌≢◌, ◌<◌, ◌↔◌, ℕ, [], true, false, Some, length, slice_get, is_some, IsOk, IsErr, IsNone, IfOk, IfErr, IfSome, OnOk, OnErr};
ghost use Rattle.std.specs.List.{list_any};
ghost use Rattle.babel_state.specs.Addresses.{transport_at};
ghost use Rattle.babel_state.specs.Calls.{set_cost_fault, cost_set, first_state, is_prefix_too_many, announced_also, withdrawn, selected_route};
ghost use Rattle.babel_state.specs.Configs.{config_fault};
ghost use Rattle.babel_state.specs.CurrentSelections.{AreCurrent};
ghost use Rattle.babel_state.specs.Grouping.{items_grouped};
ghost use Rattle.babel_state.specs.LostLinks.{links_lost};
ghost use Rattle.babel_state.specs.Messages.{arrival_of, Receives, IsRecvFault};
ghost use Rattle.babel_state.specs.Restarts.{restarted};
ghost use Rattle.babel_state.specs.Requesting.{is_wanted, seqnos_requested};
ghost use Rattle.babel_state.specs.SeqnoRequests.{raised};
ghost use Rattle.babel_state.specs.State.{announces, interface_at};
ghost use Rattle.babel_state.specs.Ticks.{ticked};
ghost use Rattle.babel_speaker.specs.Deadlines.{next_deadline};
ghost use Rattle.babel_speaker.specs.Making.{IsMakingFault, IsRestoreFault, router_fault};
ghost use Rattle.babel_speaker.specs.Sending.{IsBuiltFrom, MeansFrom, draft_at};

use arrayvec::ArrayVec;
use babel_choice::Selection;
use babel_speaker::Speaker;
use babel_state::{
    Config, ConfigFault, NotAnnounced, Note, RecvFault, RestoreFault, Selected, SetCostFault,
    Target, TooManyPrefixes,
};
use babel_tlv::DATAGRAM_LEN;
use babel_value::{Addr, Prefix};
use std::alloc::Global;
use std::marker::Model;

/// The speaker of a node. A clause sees its state, and not the counts of its changes.
#[derive(Drop)]
pub struct NodeSpeaker {
    speaker: Speaker,
}

impl Model for NodeSpeaker {
    ghost use Rattle.babel_state.specs.State.{State};

    ghost Value = { State };

    ghost view = { λ s. s.speaker.state };
}

/// Its calls are those of [`Speaker`].
impl NodeSpeaker {
    pub(crate) fn from_config(alloc: Global, config: &Config) -> Result<NodeSpeaker, ConfigFault>
        ensures ok { IfOk result (λ speaker. speaker ≡ first_state config.now) }
        ensures valid { IsOk result → IsNone (config_fault config.now) }
        ensures refused { IfErr result (λ fault. IsMakingFault (config_fault config.now) fault) }
    {
        match Speaker::from_config(alloc, config) {
            Ok(speaker) => Ok(NodeSpeaker { speaker }),
            Err(fault) => Err(fault),
        }
    }

    pub(crate) fn restart(&mut self, config: &Config, now: u64) -> Result<(), RestoreFault>
        ensures ok { OnOk result (self.new ≡ restarted now config.now self.old) }
        ensures refused { IfErr result (λ fault. IsRestoreFault (config_fault config.now) (router_fault config.now.router_id self.old.router) fault) }
        ensures err { OnErr result (self.new ≡ self.old) }
    {
        self.speaker.restart(config, now)
    }

    pub(crate) fn receive(
        &mut self,
        now: u64,
        iface: u8,
        source: Addr,
        octets: &[u8],
    ) -> Result<Vec<Note>, RecvFault>
        ensures ok { IfOk result (λ notes. Receives (arrival_of now (record { iface = iface; addr = source }) octets.now) self.old self.new notes.items) }
        ensures refused { IfErr result (λ fault. IsRecvFault (arrival_of now (record { iface = iface; addr = source }) octets.now) self.old fault) }
        ensures unchanged { OnErr result (self.new ≡ self.old) }
    {
        self.speaker.receive(now, iface, source, octets)
    }

    pub(crate) fn tick(&mut self, now: u64)
        ensures { self.new ≡ ticked now self.old }
    {
        self.speaker.tick(now);
    }

    pub(crate) fn raise(&mut self)
        ensures { self.new ≡ raised self.old }
    {
        self.speaker.raise();
    }

    pub(crate) fn request_seqnos(&mut self, now: u64)
        ensures { self.new ≡ seqnos_requested now self.old }
    {
        self.speaker.request_seqnos(now);
    }

    pub(crate) fn lose_links(&mut self, now: u64, iface: u8)
        ensures { self.new ≡ links_lost now iface self.old }
    {
        self.speaker.lose_links(now, iface);
    }

    pub(crate) fn group_items(&mut self)
        ensures { self.new ≡ items_grouped self.old }
    {
        self.speaker.group_items();
    }

    pub(crate) fn set_cost(&mut self, iface: u8, cost: u16) -> Result<(), SetCostFault>
        ensures refused { IsOk result ↔ IsNone (set_cost_fault iface cost self.old) }
        ensures cause { IfErr result (λ fault. set_cost_fault iface cost self.old ≡ Some fault) }
        ensures ok { OnOk result (self.new ≡ cost_set iface cost self.old) }
        ensures err { OnErr result (self.new ≡ self.old) }
    {
        self.speaker.set_cost(iface, cost)
    }

    pub(crate) fn announce(&mut self, prefix: Prefix) -> Result<(), TooManyPrefixes>
        ensures full { IsErr result ↔ (is_prefix_too_many prefix self.old ≡ true) }
        ensures ok { OnOk result (self.new ≡ announced_also prefix self.old) }
        ensures err { OnErr result (self.new ≡ self.old) }
    {
        self.speaker.announce(prefix)
    }

    pub(crate) fn withdraw(&mut self, prefix: Prefix) -> Result<(), NotAnnounced>
        ensures unknown { IsErr result ↔ (announces prefix self.old ≡ false) }
        ensures ok { OnOk result (self.new ≡ withdrawn prefix self.old) }
        ensures err { OnErr result (self.new ≡ self.old) }
    {
        self.speaker.withdraw(prefix)
    }

    pub(crate) fn next_datagram(
        &mut self,
        now: u64,
        out: &mut ArrayVec<u8, DATAGRAM_LEN>,
    ) -> Option<Target>
        ensures state { self.new ≡ (draft_at now self.old).state }
        ensures target { result ≡ (draft_at now self.old).target }
        ensures octets { IfSome result (λ target. MeansFrom (transport_at target.iface self.old) out.new.items (draft_at now self.old).messages) }
        ensures built { IfSome result (λ target. IsBuiltFrom (transport_at target.iface self.old) out.new.items (draft_at now self.old).messages) }
    {
        self.speaker.next_datagram(now, out)
    }

    pub(crate) fn transport(&self, iface: u8) -> Option<Addr>
        ensures { result ≡ transport_at iface self.now }
    {
        self.speaker.transport(iface)
    }

    pub(crate) fn has_interface(&self, iface: u8) -> bool
        ensures { result ≡ is_some (interface_at iface self.now) }
    {
        self.speaker.interface(iface).is_some()
    }

    pub(crate) fn selected(&self, prefix: &Prefix) -> Option<Selected>
        ensures { result ≡ selected_route prefix.now self.now }
    {
        self.speaker.selected(prefix)
    }

    pub(crate) fn selection_at(&self, place: usize) -> Option<(Prefix, Selection)>
        ensures { result ≡ slice_get self.now.routes.selections place }
    {
        self.speaker.selection_at(place)
    }

    pub(crate) fn raises(&self) -> u64
        ensures { result ≡ self.now.raises }
    {
        self.speaker.raises()
    }

    pub(crate) fn wants_seqnos(&self) -> bool
        ensures { result ≡ list_any (is_wanted self.now) self.now.routes.entries }
    {
        self.speaker.wants_seqnos()
    }

    pub(crate) fn pending_count(&self) -> usize
        ensures { result ≡ length self.now.pending.items }
    {
        self.speaker.pending_count()
    }

    pub(crate) fn next_due(&self) -> u64
        ensures idle { (now : ℕ) → now < result → ticked now self.now ≡ self.now }
        ensures pending { self.now.pending.items ≢ [] → result ≡ 0 }
        ensures current { 0 < result → AreCurrent self.now }
        ensures deadline { self.now.pending.items ≡ [] → AreCurrent self.now → result ≡ next_deadline self.now }
    {
        self.speaker.next_due()
    }

    pub(crate) fn routes_version(&self) -> u64 {
        self.speaker.routes_version()
    }
}
