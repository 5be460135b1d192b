//! The nodes of a network: their speakers, and the datagrams that they sent.

ghost use Rattle.std.specs.Prelude.{◌≡◌, ◌<◌, All, None, length, slice_get, map, is_some, option_map, IfOk, IfErr, IfSome, IsOk, IsNone, OnOk, OnErr};
ghost use Rattle.std.specs.List.{list_any};
ghost use Rattle.std.specs.Option.{option_and_then};
ghost use Rattle.babel_value.specs.Seqnos.{seqno_modulus};
ghost use Rattle.babel_state.specs.declared.configs.Config.{Config};
ghost use Rattle.babel_state.specs.Requesting.{is_wanted};
ghost use Rattle.babel_state.specs.State.{State};
ghost use Rattle.babel_state.specs.Calls.{first_state, selected_route};
ghost use Rattle.babel_machine.specs.Acceptance.{first_bad_from, net_fault};
ghost use Rattle.babel_net.specs.Emitting.{IsEmitted, IsDueAt};
ghost use Rattle.babel_net.specs.EventRefusals.{deliver_fault, step_fault, IsFaultOrMemory, IsStepFault};
ghost use Rattle.babel_net.specs.HearFaults.{place_fault, IsHearFault};
ghost use Rattle.babel_net.specs.Hearing.{HearsAt};
ghost use Rattle.babel_net.specs.Invariants.{IsRunning};
ghost use Rattle.babel_net.specs.Making.{IsOutOfMemory, IsMakingFault};
ghost use Rattle.babel_net.specs.Promises.{first_network};
ghost use Rattle.babel_net.specs.Steps.{Makes, MakesEmit, MakesDeliver, MakesRestart};

use crate::calls::{call, hear, node_of, receive, restart};
use crate::hearing::{HearFault, Heard, Hearing};
use crate::node_speakers::NodeSpeaker;
use crate::sent::Record;
use babel_choice::Selection;
use babel_machine::{Event, NetFault, StepFault};
use babel_owners::net_fault;
use babel_state::{Config, Selected, Target};
use babel_value::{Addr, Memory, Prefix};
use std::alloc::Global;
use std::marker::Model;

/// What an emit sent.
#[derive(Clone, Copy)]
pub struct Emitted {
    /// The number of the recorded datagram, counted from 0.
    pub number: usize,
    /// Over which interface it goes, and to whom.
    pub target: Target,
}

/// The speakers by their nodes' numbers, their configurations, and all that was ever sent, in
/// order.
///
/// It makes the steps of a network, and promises nothing of its routes: a
/// [`Network`](crate::Network) does, and so does a network of ours among routers of others
/// (`babel_mixed`).
#[derive(Drop)]
pub struct Nodes {
    alloc: Global,
    configs: Vec<Config>,
    speakers: Vec<NodeSpeaker>,
    sent: Record,
}

impl Model for Nodes {
    ghost use Rattle.babel_net.specs.Networks.{NetworkState};

    ghost Value = { NetworkState };

    ghost view = { λ n. record { configs = n.configs.items; speakers = n.speakers.items; sent = n.sent } };
}

impl Nodes {
    /// A speaker for each of the configurations, and nothing sent.
    ///
    /// # Errors
    ///
    /// Those of [`Network::new`](crate::Network::new).
    pub fn new(alloc: Global, configs: Vec<Config>) -> Result<Nodes, NetFault>
        ensures ok { IfOk result (λ nodes. nodes ≡ first_network configs.items) }
        ensures words { OnOk result (All (λ (c : Config). c.seqno < seqno_modulus) configs.items) }
        ensures valid { IsOk result → IsNone (net_fault configs.items) }
        ensures refused { IfErr result (IsMakingFault configs.items (net_fault configs.items)) }
    {
        if let Some(fault) = net_fault(&configs) {
            return Err(fault);
        }
        let speakers = speakers_of(alloc, &configs)?;
        Ok(Nodes {
            alloc,
            configs,
            speakers,
            sent: Record::new(alloc),
        })
    }

    /// Reserves the room for this many more datagrams of the usual length. It only matters for
    /// speed.
    ///
    /// # Errors
    ///
    /// `Memory`: an allocation failed.
    pub fn reserve(&mut self, datagrams: usize) -> Result<(), Memory>
        ensures { self.new ≡ self.old }
    {
        match self.sent.reserve(datagrams) {
            Ok(()) => Ok(()),
            Err(_) => Err(Memory),
        }
    }

    /// Makes the event's step, or refuses it and changes nothing.
    ///
    /// # Errors
    ///
    /// The first cause of N1, N2, N3, N4, N5 and N7. If there is none and an allocation fails: N6.
    #[tactic(auto, unfolding(crate::specs::EventRefusals::step_fault))]
    pub fn step(&mut self, event: &Event) -> Result<(), StepFault>
        requires { IsRunning self.old }
        ensures ok { OnOk result (Makes event.now self.old self.new) }
        ensures accepted { OnOk result (step_fault event.now self.old ≡ None) }
        ensures refused { IfErr result (IsStepFault (step_fault event.now self.old) event.now self.old) }
        ensures err { OnErr result (self.new ≡ self.old) }
    {
        let node = node_of(event);
        if node >= self.speakers.len() {
            return Err(StepFault::NoNode);
        }
        match *event {
            Event::Emit { now, .. } => self.emit(node, now),
            Event::Deliver {
                datagram,
                iface,
                now,
                ..
            } => self.deliver(datagram, node, iface, now),
            Event::Restart { now, .. } => self.restart(node, now),
            _ => call(&mut self.speakers[node], &self.configs[node], event),
        }
    }

    /// The node sends its next datagram, if there is one, which is recorded. Returns its number and
    /// where it goes.
    #[tactic(auto, unfolding(crate::specs::EventRefusals::step_fault))]
    pub(crate) fn send_next(&mut self, node: usize, now: u64) -> Result<Option<Emitted>, StepFault>
        requires { IsRunning self.old }
        ensures ok { OnOk result (Makes (Event.Emit node now) self.old self.new) }
        ensures accepted { OnOk result (step_fault (Event.Emit node now) self.old ≡ None) }
        ensures refused { IfErr result (IsStepFault (step_fault (Event.Emit node now) self.old) (Event.Emit node now) self.old) }
        ensures err { OnErr result (self.new ≡ self.old) }
        ensures emitted { IfOk result (λ emitted. (speaker : State) → slice_get self.old.speakers node ≡ Some speaker → IsEmitted now speaker self.old emitted) }
    {
        if node >= self.speakers.len() {
            return Err(StepFault::NoNode);
        }
        self.record_next(node, now)
    }

    /// The node's next datagram is recorded, if there is one.
    fn emit(&mut self, node: usize, now: u64) -> Result<(), StepFault>
        requires inside { node < length self.old.speakers }
        requires sound { IsRunning self.old }
        ensures ok { OnOk result (MakesEmit node now self.old self.new) }
        ensures refused { IfErr result (λ fault. fault ≡ StepFault.Memory) }
        ensures err { OnErr result (self.new ≡ self.old) }
    {
        match self.record_next(node, now) {
            Ok(_) => Ok(()),
            Err(fault) => Err(fault),
        }
    }

    /// The node's next datagram is recorded, if there is one. Returns its number and where it goes.
    fn record_next(&mut self, node: usize, now: u64) -> Result<Option<Emitted>, StepFault>
        requires inside { node < length self.old.speakers }
        requires sound { IsRunning self.old }
        ensures ok { OnOk result (MakesEmit node now self.old self.new) }
        ensures refused { IfErr result (λ fault. fault ≡ StepFault.Memory) }
        ensures err { OnErr result (self.new ≡ self.old) }
        ensures emitted { IfOk result (λ emitted. (speaker : State) → slice_get self.old.speakers node ≡ Some speaker → IsEmitted now speaker self.old emitted) }
    {
        let number = self.sent.count();
        match self.sent.record_next(&mut self.speakers[node], node, now) {
            Ok(Some(target)) => Ok(Some(Emitted { number, target })),
            Ok(None) => Ok(None),
            Err(fault) => Err(fault),
        }
    }

    /// The node receives the recorded datagram.
    fn deliver(&mut self, number: usize, node: usize, iface: u8, now: u64) -> Result<(), StepFault>
        requires inside { node < length self.old.speakers }
        requires sound { IsRunning self.old }
        ensures ok { OnOk result (MakesDeliver number node iface now self.old self.new) }
        ensures accepted { OnOk result ((speaker : State) → slice_get self.old.speakers node ≡ Some speaker → deliver_fault number iface speaker self.old ≡ None) }
        ensures refused { IfErr result (λ fault. (speaker : State) → slice_get self.old.speakers node ≡ Some speaker → IsFaultOrMemory (deliver_fault number iface speaker self.old) fault) }
        ensures err { OnErr result (self.new ≡ self.old) }
    {
        let Some(sent) = self.sent.get(number) else {
            return Err(StepFault::NoDatagram);
        };
        receive(&mut self.speakers[node], &sent, iface, now)
    }

    /// Whether the node has the interface.
    ///
    /// # Errors
    ///
    /// The first cause of N1 and N3.
    pub fn can_hear(&self, node: usize, iface: u8) -> Result<(), HearFault>
        ensures ok { OnOk result (place_fault iface (slice_get self.now.speakers node) ≡ None) }
        ensures refused { IfErr result (λ fault. place_fault iface (slice_get self.now.speakers node) ≡ Some fault) }
    {
        match self.speakers.get(node) {
            Some(speaker) if speaker.has_interface(iface) => Ok(()),
            Some(_) => Err(HearFault::NoInterface),
            None => Err(HearFault::NoNode),
        }
    }

    /// The node receives octets from an address that no node has. Its speaker may refuse them.
    ///
    /// # Errors
    ///
    /// The first cause of N1 and N3. If there is none and an allocation fails: N6.
    pub fn hear(&mut self, heard: &Heard<'_>) -> Result<Hearing, HearFault>
        ensures ok { IfOk result (λ hearing. HearsAt heard.entry.now hearing self.old self.new) }
        ensures refused { IfErr result (IsHearFault (place_fault heard.entry.now.iface (slice_get self.old.speakers heard.entry.now.node))) }
        ensures err { OnErr result (self.new ≡ self.old) }
    {
        if heard.node >= self.speakers.len() {
            return Err(HearFault::NoNode);
        }
        hear(&mut self.speakers[heard.node], heard)
    }

    /// The node's speaker is saved, and restored with its configuration.
    fn restart(&mut self, node: usize, now: u64) -> Result<(), StepFault>
        requires inside { node < length self.old.speakers }
        requires sound { IsRunning self.old }
        ensures ok { OnOk result (MakesRestart node now self.old self.new) }
        ensures refused { IfErr result (λ fault. fault ≡ StepFault.Memory) }
        ensures err { OnErr result (self.new ≡ self.old) }
    {
        restart(&mut self.speakers[node], &self.configs[node], now)
    }

    /// The configurations.
    pub fn configs(&self) -> &[Config]
        ensures { result.now ≡ self.now.configs }
    {
        self.configs.as_slice()
    }

    /// The node's selected route to the prefix, if any.
    pub fn selected(&self, node: usize, prefix: &Prefix) -> Option<Selected>
        ensures { result ≡ option_and_then (selected_route prefix.now) (slice_get self.now.speakers node) }
    {
        match self.speakers.get(node) {
            Some(speaker) => speaker.selected(prefix),
            None => None,
        }
    }

    /// The moment before which a tick of the node changes nothing; `None` if there is no such node.
    pub(crate) fn next_due(&self, node: usize) -> Option<u64>
        ensures there { is_some result ≡ is_some (slice_get self.now.speakers node) }
        ensures due { IfSome result (λ due. (speaker : State) → slice_get self.now.speakers node ≡ Some speaker → IsDueAt due speaker) }
    {
        match self.speakers.get(node) {
            Some(speaker) => Some(speaker.next_due()),
            None => None,
        }
    }

    /// The node's selection whose prefix has exactly `place` lesser ones among its selections'
    /// prefixes.
    pub fn selection_at(&self, node: usize, place: usize) -> Option<(Prefix, Selection)>
        ensures { result ≡ option_and_then (λ (s : State). slice_get s.routes.selections place) (slice_get self.now.speakers node) }
    {
        match self.speakers.get(node) {
            Some(speaker) => speaker.selection_at(place),
            None => None,
        }
    }

    /// How often the node's own seqno grew; `None` if there is no such node.
    pub fn raises(&self, node: usize) -> Option<u64>
        ensures { result ≡ option_map (λ (s : State). s.raises) (slice_get self.now.speakers node) }
    {
        match self.speakers.get(node) {
            Some(speaker) => Some(speaker.raises()),
            None => None,
        }
    }

    /// Whether the node has a route that it would select if that were feasible; `None` if there is
    /// no such node.
    pub fn wants_seqnos(&self, node: usize) -> Option<bool>
        ensures { result ≡ option_map (λ (s : State). list_any (is_wanted s) s.routes.entries) (slice_get self.now.speakers node) }
    {
        match self.speakers.get(node) {
            Some(speaker) => Some(speaker.wants_seqnos()),
            None => None,
        }
    }

    /// How many items the node has pending; `None` if there is no such node.
    pub fn pending_count(&self, node: usize) -> Option<usize>
        ensures { result ≡ option_map (λ (s : State). length s.pending.items) (slice_get self.now.speakers node) }
    {
        match self.speakers.get(node) {
            Some(speaker) => Some(speaker.pending_count()),
            None => None,
        }
    }

    /// How often the node's selected routes may have changed; `None` if there is no such node.
    pub fn routes_version(&self, node: usize) -> Option<u64>
        ensures { is_some result ≡ is_some (slice_get self.now.speakers node) }
    {
        match self.speakers.get(node) {
            Some(speaker) => Some(speaker.routes_version()),
            None => None,
        }
    }

    /// The sent datagram of the number, if there is one: its node, its source address and its
    /// octets.
    pub fn sent(&self, number: usize) -> Option<(usize, Addr, &[u8])>
        ensures none { IsNone result → slice_get self.now.sent number ≡ None }
        ensures some { IfSome result (λ d. slice_get self.now.sent number ≡ Some (record { node = d.0; source = d.1; octets = d.2.now })) }
    {
        match self.sent.get(number) {
            Some(sent) => Some((sent.node(), sent.source(), sent.octets())),
            None => None,
        }
    }
}

/// A speaker for each of the configurations.
fn speakers_of(alloc: Global, configs: &[Config]) -> Result<Vec<NodeSpeaker>, NetFault>
    requires { first_bad_from 0 configs.now ≡ None }
    ensures ok { IfOk result (λ speakers. speakers.items ≡ map first_state configs.now) }
    ensures words { OnOk result (All (λ (c : Config). c.seqno < seqno_modulus) configs.now) }
    ensures refused { IfErr result (IsOutOfMemory configs.now) }
{
    let mut speakers = match Vec::with_capacity(alloc, configs.len()) {
        Ok(speakers) => speakers,
        Err(_) => return Err(NetFault::Memory),
    };
    let mut node = 0;
    while node < configs.len() {
        let seqno = configs[node].seqno;
        seqno_fits(seqno);
        match NodeSpeaker::from_config(alloc, &configs[node]) {
            Ok(speaker) => speakers.push_reserved(speaker),
            Err(fault) => return Err(NetFault::BadConfig { node, fault }),
        }
        node += 1;
    }
    Ok(speakers)
}

/// A seqno has 16 bits.
fn seqno_fits(seqno: u16)
    ensures { seqno < seqno_modulus }
{}
