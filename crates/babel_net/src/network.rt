//! The network, event by event.
//!
//! An event costs what its speaker's call costs. The owner of an address is looked up in an ordered
//! map, which `Network::new` makes.

ghost use Rattle.std.specs.Prelude.{◌≡◌, ◌↔◌, None, length, slice_get, is_some, option_map, IfOk, IfErr, IfSome, IsOk, IsNone, OnOk, OnErr};
ghost use Rattle.std.specs.BTreeMap.{get};
ghost use Rattle.std.specs.List.{list_any};
ghost use Rattle.std.specs.Option.{option_and_then};
ghost use Rattle.babel_value.specs.Orders.{addr_cmp};
ghost use Rattle.babel_state.specs.declared.selected.Selected.{Selected};
ghost use Rattle.babel_state.specs.Requesting.{is_wanted};
ghost use Rattle.babel_state.specs.State.{State};
ghost use Rattle.babel_machine.specs.Acceptance.{net_fault};
ghost use Rattle.babel_machine.specs.Worlds.{next_hop_in, router_in};

use crate::laws::{networks_begin, networks_go_on};
use crate::nodes::{Emitted, Nodes};
use babel_choice::Selection;
use babel_machine::laws::{
    events_are_machine_runs, next_hops_are_picks, sound_networks_have_no_loop,
};
use babel_machine::{Event, NetFault, StepFault};
use babel_owners::Owners;
use babel_state::{Config, Selected};
use babel_value::{Addr, Memory, Prefix, RouterId};
use std::alloc::Global;
use std::marker::Model;

/// A network of speakers. What a node sends is recorded, and each recorded datagram may be
/// delivered to any node, late, more than once, or never. A node that restarts keeps its source
/// table and own seqno, and is otherwise as configured.
///
/// A clause sees the configurations, the states of the speakers, and the datagrams that were sent.
#[derive(Drop)]
pub struct Network {
    nodes: Nodes,
    owners: Owners,
}

impl Model for Network {
    ghost use Rattle.babel_net.specs.Networks.{NetworkState};
    ghost use Rattle.babel_net.specs.Invariants.{IsNetwork};
    ghost use Rattle.babel_net.specs.Owned.{AreOwners};

    ghost Value = { NetworkState };

    ghost view = { λ n. n.nodes };

    ghost invariant = { λ n. IsNetwork n.nodes × AreOwners n.nodes.configs n.owners.nodes };
}

impl Network {
    ghost use Rattle.babel_net.specs.EventRefusals.{step_fault, IsStepFault};
    ghost use Rattle.babel_net.specs.Emitting.{IsEmitted, IsDueAt};
    ghost use Rattle.babel_net.specs.Invariants.{IsNetwork};
    ghost use Rattle.babel_net.specs.Making.{IsMakingFault};
    ghost use Rattle.babel_net.specs.Networks.{world_of};
    ghost use Rattle.babel_net.specs.Promises.{first_network, HasNoLoop, HasNoLoopWithOneOrigin, Runs, IsNextHop, Ran, StopsAt};
    ghost use Rattle.babel_net.specs.Steps.{Makes};

    /// A network of new speakers, one for each configuration in order.
    ///
    /// # Errors
    ///
    /// The first cause of M5, M7 with C1 to C6, M4, M1 and M2. If there is none and an allocation
    /// fails: M6, or M7 with C7 if it was a speaker's.
    #[tactic(auto, using(crate::proofs::MakingFaults::own_memory))]
    pub fn new(alloc: Global, configs: Vec<Config>) -> Result<Network, NetFault>
        ensures ok { IfOk result (λ network. network ≡ first_network configs.items) }
        ensures valid { IsOk result → IsNone (net_fault configs.items) }
        ensures refused { IfErr result (IsMakingFault configs.items (net_fault configs.items)) }
    {
        networks_begin();
        let nodes = Nodes::new(alloc, configs)?;
        let owners = match Owners::new(alloc, nodes.configs()) {
            Ok(owners) => owners,
            Err(_) => return Err(NetFault::Memory),
        };
        Ok(Network { nodes, owners })
    }

    /// Reserves the room for this many more datagrams of the usual length, so that recording them
    /// moves none of those that were sent. It only matters for speed.
    ///
    /// # Errors
    ///
    /// `Memory`: an allocation failed.
    pub fn reserve(&mut self, datagrams: usize) -> Result<(), Memory>
        ensures { self.new ≡ self.old }
    {
        self.nodes.reserve(datagrams)
    }

    /// Makes the step of an event, or refuses it and changes nothing.
    ///
    /// # Errors
    ///
    /// The first cause of N1, N2, N3, N4, N5 and N7. If there is none and an allocation fails: N6.
    pub fn step(&mut self, event: &Event) -> Result<(), StepFault>
        ensures event { OnOk result (Makes event.now self.old self.new) }
        ensures accepted { OnOk result (step_fault event.now self.old ≡ None) }
        ensures refused { IfErr result (IsStepFault (step_fault event.now self.old) event.now self.old) }
        ensures err { OnErr result (self.new ≡ self.old) }
        ensures invariant { IsNetwork self.new }
        // each event is a list of steps of the message machine, and leaves no loop
        ensures run { OnOk result (Runs self.old self.new) }
        ensures no_loop { HasNoLoop self.new }
        ensures one_origin { HasNoLoopWithOneOrigin self.new }
    {
        networks_go_on();
        events_are_machine_runs();
        sound_networks_have_no_loop();
        self.nodes.step(event)
    }

    /// Makes the steps of some events, up to the first that is refused.
    ///
    /// # Errors
    ///
    /// The index of that event, and why it is refused.
    pub fn run(&mut self, events: &[Event]) -> Result<(), (usize, StepFault)>
        ensures ok { OnOk result (Ran events.now self.old self.new) }
        ensures err { IfErr result (λ stop. StopsAt events.now stop.0 stop.1 self.old self.new) }
        ensures no_loop { HasNoLoop self.new }
        ensures one_origin { HasNoLoopWithOneOrigin self.new }
    {
        networks_go_on();
        sound_networks_have_no_loop();
        let _ = &self.nodes;
        let mut done = 0;
        while done < events.len() {
            if let Err(fault) = self.step(&events[done]) {
                return Err((done, fault));
            }
            done += 1;
        }
        Ok(())
    }

    /// Makes the step of the event `Emit`, or refuses it and changes nothing. Returns the number of
    /// the datagram that it recorded, and where it goes: `None` if the node had nothing to send.
    ///
    /// # Errors
    ///
    /// N1. If the node is there and an allocation fails: N6.
    pub fn emit(&mut self, node: usize, now: u64) -> Result<Option<Emitted>, StepFault>
        ensures event { OnOk result (Makes (Event.Emit node now) self.old self.new) }
        ensures accepted { OnOk result (step_fault (Event.Emit node now) self.old ≡ None) }
        ensures refused { IfErr result (IsStepFault (step_fault (Event.Emit node now) self.old) (Event.Emit node now) self.old) }
        ensures err { OnErr result (self.new ≡ self.old) }
        ensures invariant { IsNetwork self.new }
        // the number of what was recorded, and the target that the speaker gave it
        ensures emitted { IfOk result (λ emitted. (speaker : State) → slice_get self.old.speakers node ≡ Some speaker → IsEmitted now speaker self.old emitted) }
        // as each event
        ensures run { OnOk result (Runs self.old self.new) }
        ensures no_loop { HasNoLoop self.new }
        ensures one_origin { HasNoLoopWithOneOrigin self.new }
    {
        networks_go_on();
        events_are_machine_runs();
        sound_networks_have_no_loop();
        self.nodes.send_next(node, now)
    }

    /// The moment before which a tick of the node changes nothing, as
    /// [`Speaker::next_due`](babel_speaker::Speaker::next_due). `None` if there is no such node.
    pub fn next_due(&self, node: usize) -> Option<u64>
        ensures there { is_some result ≡ is_some (slice_get self.now.speakers node) }
        ensures due { IfSome result (λ due. (speaker : State) → slice_get self.now.speakers node ≡ Some speaker → IsDueAt due speaker) }
    {
        self.nodes.next_due(node)
    }

    /// The node that has the address of the neighbour of the node's selected route to the prefix.
    pub fn next_hop(&self, node: usize, prefix: &Prefix) -> Option<usize>
        ensures returned { result ≡ next_hop_in self.now.configs (world_of self.now) prefix.now node }
        ensures router { IsNone result ↔ IsNone (router_in (world_of self.now) prefix.now node) }
        ensures pick { IsNextHop self.now prefix.now node result }
        // after any events
        ensures no_loop { HasNoLoop self.now }
        ensures one_origin { HasNoLoopWithOneOrigin self.now }
    {
        next_hops_are_picks();
        sound_networks_have_no_loop();
        let selected = self.nodes.selected(node, prefix);
        hop_of(&self.owners, selected)
    }

    /// The router-id of the node's selected route to the prefix.
    pub fn router(&self, node: usize, prefix: &Prefix) -> Option<RouterId>
        ensures returned { result ≡ router_in (world_of self.now) prefix.now node }
        ensures next_hop { IsNone result ↔ IsNone (next_hop_in self.now.configs (world_of self.now) prefix.now node) }
        // after any events
        ensures no_loop { HasNoLoop self.now }
        ensures one_origin { HasNoLoopWithOneOrigin self.now }
    {
        sound_networks_have_no_loop();
        let selected = self.nodes.selected(node, prefix);
        router_of(selected)
    }

    /// The node's selection whose prefix has exactly `place` lesser ones among its selections'
    /// prefixes.
    pub fn selection_at(&self, node: usize, place: usize) -> Option<(Prefix, Selection)>
        ensures { result ≡ option_and_then (λ (s : State). slice_get s.routes.selections place) (slice_get self.now.speakers node) }
    {
        self.nodes.selection_at(node, place)
    }

    /// How often the node's own seqno grew. `None` if there is no such node.
    pub fn raises(&self, node: usize) -> Option<u64>
        ensures { result ≡ option_map (λ (s : State). s.raises) (slice_get self.now.speakers node) }
    {
        self.nodes.raises(node)
    }

    /// Whether the node has a route that it would select if that were feasible (RFC 8966, section
    /// 3.8.2.2). If not, the event [`Event::RequestSeqnos`] changes nothing there. `None` if there
    /// is no such node.
    pub fn wants_seqnos(&self, node: usize) -> Option<bool>
        ensures { result ≡ option_map (λ (s : State). list_any (is_wanted s) s.routes.entries) (slice_get self.now.speakers node) }
    {
        self.nodes.wants_seqnos(node)
    }

    /// How many items the node has pending. While there are at most two, the event
    /// [`Event::GroupItems`] changes nothing there. `None` if there is no such node.
    pub fn pending_count(&self, node: usize) -> Option<usize>
        ensures { result ≡ option_map (λ (s : State). length s.pending.items) (slice_get self.now.speakers node) }
    {
        self.nodes.pending_count(node)
    }

    /// A count of the node's speaker, which grows whenever a selected route of the node may be
    /// reported otherwise, as [`Speaker::routes_version`](babel_speaker::Speaker::routes_version).
    /// A restart makes the speaker and its count again. `None` if there is no such node.
    pub fn routes_version(&self, node: usize) -> Option<u64>
        ensures { is_some result ≡ is_some (slice_get self.now.speakers node) }
    {
        self.nodes.routes_version(node)
    }

    /// The node, the source address and the octets of the datagram of this number, counted from 0.
    /// `None` if no such datagram was sent.
    pub fn sent(&self, number: usize) -> Option<(usize, Addr, &[u8])>
        ensures none { IsNone result → slice_get self.now.sent number ≡ None }
        ensures some { IfSome result (λ d. slice_get self.now.sent number ≡ Some (record { node = d.0; source = d.1; octets = d.2.now })) }
    {
        self.nodes.sent(number)
    }
}

/// The node that has the address of the selected route's neighbour.
pub fn hop_of(owners: &Owners, selected: Option<Selected>) -> Option<usize>
    ensures { result ≡ option_and_then (λ (route : Selected). get addr_cmp owners.now.nodes route.peer.addr) selected }
{
    match selected {
        Some(route) => owners.owner(&route.peer.addr),
        None => None,
    }
}

/// The router-id of the selected route.
pub fn router_of(selected: Option<Selected>) -> Option<RouterId>
    ensures { result ≡ option_map (λ (route : Selected). route.router) selected }
{
    match selected {
        Some(route) => Some(route.router),
        None => None,
    }
}
