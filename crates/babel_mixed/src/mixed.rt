//! A network of ours among routers of others, whatever these send.
//!
//! A step costs what it costs without them. What is heard costs that too, and is decoded once more
//! for the record of its updates.

ghost use Rattle.std.specs.Prelude.{◌≡◌, ◌+◌, ◌≤◌, None, Some, length, slice_get, vec_len, vec_capacity, is_some, option_map, IfOk, IfErr, IfSome, IsOk, IsNone, OnOk, OnErr};
ghost use Rattle.std.specs.BTreeMap.{get};
ghost use Rattle.std.specs.Option.{option_and_then};
ghost use Rattle.babel_value.specs.Orders.{addr_cmp};
ghost use Rattle.babel_packet.specs.Encodable.{AreOctets, IsAddr};
ghost use Rattle.babel_packet.specs.Meaning.{meaning};
ghost use Rattle.babel_state.specs.declared.selected.Selected.{Selected};
ghost use Rattle.babel_state.specs.Calls.{selected_route};
ghost use Rattle.babel_state.specs.State.{State};
ghost use Rattle.babel_machine.specs.Acceptance.{net_fault};
ghost use Rattle.babel_machine.specs.ForeignWorlds.{gateway_in};
ghost use Rattle.babel_machine.specs.Worlds.{next_hop_in, router_in};
ghost use Rattle.babel_net.specs.HearFaults.{hear_fault};
ghost use Rattle.babel_mixed.specs.MixedNetworks.{Hears};
ghost use Rattle.babel_net.specs.Networks.{updates_read};
ghost use Rattle.babel_net.specs.Owned.{AreOwners};

use crate::events::{MixedEvent, MixedFault};
use crate::laws::{mixed_begin, mixed_go_on, mixed_networks_have_no_loop};
use crate::updates::{HeardUpdate, record, updates_heard};
use babel_choice::Selection;
use babel_machine::{Event, NetFault, StepFault};
use babel_net::{HearFault, Heard, Hearing, Nodes, Owners, hop_of, router_of};
use babel_state::{Config, Selected};
use babel_value::{Addr, Memory, Prefix, RouterId};
use std::alloc::Global;
use std::marker::Model;

/// A network of speakers whose nodes also hear routers of others: any octets, from any address that
/// no node has.
///
/// What they hear makes no loop among our nodes, as far as the seqnos of a source keep to one half
/// of the circle (RFC 8966, section 3.2.1). Traffic follows next hops: so none that was heard may
/// be an address of ours.
///
/// A clause sees the configurations, the states of the speakers, the datagrams that our nodes sent,
/// and the finite updates that they heard.
#[derive(Drop)]
pub struct MixedNetwork {
    alloc: Global,
    nodes: Nodes,
    owners: Owners,
    heard: Vec<HeardUpdate>,
}

impl Model for MixedNetwork {
    ghost use Rattle.babel_mixed.specs.MixedNetworks.{MixedState};
    ghost use Rattle.babel_mixed.specs.Mixed.{IsMixed};
    ghost use Rattle.babel_net.specs.Owned.{AreOwners};

    ghost Value = { MixedState };

    ghost view = { λ n. record { ours = n.nodes; heard = n.heard.items } };

    ghost invariant = { λ n. IsMixed (record { ours = n.nodes; heard = n.heard.items }) × AreOwners n.nodes.configs n.owners.nodes };
}

impl MixedNetwork {
    ghost use Rattle.babel_net.specs.EventRefusals.{step_fault, IsStepFault};
    ghost use Rattle.babel_net.specs.HearFaults.{hear_fault, IsHearFault};
    ghost use Rattle.babel_mixed.specs.MixedNetworks.{first_mixed, MakesHear};
    ghost use Rattle.babel_net.specs.Making.{IsMakingFault};
    ghost use Rattle.babel_mixed.specs.Mixed.{HasNoLoopOfOurs, HasNoForwardingLoopOfOurs};
    ghost use Rattle.babel_mixed.specs.MixedRuns.{MakesMixed, mixed_fault, IsMixedFault, RanMixed, StopsMixedAt};
    ghost use Rattle.babel_net.specs.Networks.{world_of};
    ghost use Rattle.babel_net.specs.Steps.{Makes};

    /// A network of new speakers, one for each configuration in order, that heard nothing yet.
    ///
    /// # Errors
    ///
    /// Those of [`Network::new`](babel_net::Network::new).
    #[tactic(auto, using(babel_net::proofs::MakingFaults::own_memory))]
    pub fn new(alloc: Global, configs: Vec<Config>) -> Result<MixedNetwork, NetFault>
        ensures ok { IfOk result (λ network. network ≡ first_mixed configs.items) }
        ensures valid { IsOk result → IsNone (net_fault configs.items) }
        ensures refused { IfErr result (IsMakingFault configs.items (net_fault configs.items)) }
    {
        mixed_begin();
        let nodes = Nodes::new(alloc, configs)?;
        let owners = match Owners::new(alloc, nodes.configs()) {
            Ok(owners) => owners,
            Err(_) => return Err(NetFault::Memory),
        };
        Ok(MixedNetwork {
            alloc,
            nodes,
            owners,
            heard: Vec::new(alloc),
        })
    }

    /// Reserves the room for this many more datagrams of the usual length that our nodes send. It
    /// only matters for speed.
    ///
    /// # Errors
    ///
    /// `Memory`: an allocation failed.
    pub fn reserve(&mut self, datagrams: usize) -> Result<(), Memory>
        ensures { self.new ≡ self.old }
    {
        self.nodes.reserve(datagrams)
    }

    /// Makes the step of an event of ours, or refuses it and changes nothing.
    ///
    /// # Errors
    ///
    /// The first cause of N1, N2, N3, N4, N5 and N7. If there is none and an allocation fails: N6.
    pub fn step(&mut self, event: &Event) -> Result<(), StepFault>
        ensures event { OnOk result (Makes event.now self.old.ours self.new.ours) }
        ensures heard { self.new.heard ≡ self.old.heard }
        ensures accepted { OnOk result (step_fault event.now self.old.ours ≡ None) }
        ensures refused { IfErr result (IsStepFault (step_fault event.now self.old.ours) event.now self.old.ours) }
        ensures err { OnErr result (self.new ≡ self.old) }
        // whatever was heard
        ensures no_loop { HasNoLoopOfOurs self.new }
        ensures no_forwarding_loop { HasNoForwardingLoopOfOurs self.new }
    {
        mixed_go_on();
        mixed_networks_have_no_loop();
        self.nodes.step(event)
    }

    /// The node's speaker receives a datagram of a router of others. One that the speaker refuses
    /// changes nothing: it comes from an address that the interface takes no datagrams from, or its
    /// octets can't be read.
    ///
    /// # Errors
    ///
    /// The first cause of N8, N1 and N3. If there is none and an allocation fails: N6.
    pub fn hear(&mut self, heard: &Heard<'_>) -> Result<(), HearFault>
        ensures ok { OnOk result (MakesHear heard.entry.now self.old self.new) }
        ensures accepted { OnOk result (hear_fault heard.entry.now self.old.ours ≡ None) }
        ensures refused { IfErr result (IsHearFault (hear_fault heard.entry.now self.old.ours)) }
        ensures err { OnErr result (self.new ≡ self.old) }
        // whatever it is
        ensures no_loop { HasNoLoopOfOurs self.new }
        ensures no_forwarding_loop { HasNoForwardingLoopOfOurs self.new }
    {
        mixed_go_on();
        mixed_networks_have_no_loop();
        octets_are_small(heard.octets);
        addr_is_whole(&heard.source);
        test(&self.owners, &self.nodes, heard)?;
        let Ok(updates) = updates_heard(self.alloc, heard.octets, heard.source) else {
            return Err(HearFault::Memory);
        };
        if self.heard.reserve(updates.len()).is_err() {
            return Err(HearFault::Memory);
        }
        hear(&mut self.nodes, &mut self.heard, heard, &updates)
    }

    /// Makes the steps of some events and of what is heard among them, up to the first that is
    /// refused.
    ///
    /// # Errors
    ///
    /// The index of that event, and why it is refused.
    pub fn run(&mut self, events: &[MixedEvent<'_>]) -> Result<(), (usize, MixedFault)>
        ensures ok { OnOk result (RanMixed events.entry.now self.old self.new) }
        ensures err { IfErr result (λ stop. StopsMixedAt events.entry.now stop.0 stop.1 self.old self.new) }
        // whatever was heard
        ensures no_loop { HasNoLoopOfOurs self.new }
        ensures no_forwarding_loop { HasNoForwardingLoopOfOurs self.new }
    {
        mixed_networks_have_no_loop();
        let _ = &self.nodes;
        let mut done = 0;
        while done < events.len() {
            if let Err(fault) = self.happen(&events[done]) {
                return Err((done, fault));
            }
            done += 1;
        }
        Ok(())
    }

    /// Makes the step of the event, or refuses it and changes nothing.
    fn happen(&mut self, event: &MixedEvent<'_>) -> Result<(), MixedFault>
        ensures ok { OnOk result (MakesMixed event.entry.now self.old self.new) }
        ensures accepted { OnOk result (mixed_fault event.entry.now self.old ≡ None) }
        ensures refused { IfErr result (IsMixedFault event.entry.now self.old) }
        ensures err { OnErr result (self.new ≡ self.old) }
        ensures no_loop { HasNoLoopOfOurs self.new }
        ensures no_forwarding_loop { HasNoForwardingLoopOfOurs self.new }
    {
        match event {
            MixedEvent::Ours(event) => {
                if let Err(fault) = self.step(event) {
                    return Err(MixedFault::Ours(fault));
                }
            }
            MixedEvent::Heard(heard) => {
                if let Err(fault) = self.hear(heard) {
                    return Err(MixedFault::Heard(fault));
                }
            }
        }
        Ok(())
    }

    /// The node that has the address of the neighbour of the node's selected route to the prefix.
    /// `None` if there is no such route, or the neighbour isn't ours.
    pub fn next_hop(&self, node: usize, prefix: &Prefix) -> Option<usize>
        ensures returned { result ≡ next_hop_in self.now.ours.configs (world_of self.now.ours) prefix.now node }
        // after any events, whatever was heard
        ensures no_loop { HasNoLoopOfOurs self.now }
    {
        mixed_networks_have_no_loop();
        let selected = self.nodes.selected(node, prefix);
        hop_of(&self.owners, selected)
    }

    /// The node that has the next hop of the node's selected route to the prefix: traffic goes
    /// there. `None` if there is no such route, or the next hop isn't ours.
    pub fn gateway(&self, node: usize, prefix: &Prefix) -> Option<usize>
        ensures returned { result ≡ gateway_in self.now.ours.configs (world_of self.now.ours) prefix.now node }
        // after any events, whatever was heard
        ensures no_forwarding_loop { HasNoForwardingLoopOfOurs self.now }
    {
        mixed_networks_have_no_loop();
        let selected = self.nodes.selected(node, prefix);
        gateway_of(&self.owners, selected)
    }

    /// The router-id of the node's selected route to the prefix.
    pub fn router(&self, node: usize, prefix: &Prefix) -> Option<RouterId>
        ensures returned { result ≡ router_in (world_of self.now.ours) prefix.now node }
        // after any events, whatever was heard
        ensures no_loop { HasNoLoopOfOurs self.now }
        ensures no_forwarding_loop { HasNoForwardingLoopOfOurs self.now }
    {
        mixed_networks_have_no_loop();
        let selected = self.nodes.selected(node, prefix);
        router_of(selected)
    }

    /// The node's selected route to the prefix, with the neighbour's address and the next hop.
    pub fn selected(&self, node: usize, prefix: &Prefix) -> Option<Selected>
        ensures { result ≡ option_and_then (selected_route prefix.now) (slice_get self.now.ours.speakers node) }
    {
        self.nodes.selected(node, prefix)
    }

    /// The node's selection whose prefix has exactly `place` lesser ones among its selections'
    /// prefixes.
    pub fn selection_at(&self, node: usize, place: usize) -> Option<(Prefix, Selection)>
        ensures { result ≡ option_and_then (λ (s : State). slice_get s.routes.selections place) (slice_get self.now.ours.speakers node) }
    {
        self.nodes.selection_at(node, place)
    }

    /// How often the node's own seqno grew. `None` if there is no such node.
    pub fn raises(&self, node: usize) -> Option<u64>
        ensures { result ≡ option_map (λ (s : State). s.raises) (slice_get self.now.ours.speakers node) }
    {
        self.nodes.raises(node)
    }

    /// A count of the node's speaker, which grows whenever a selected route of the node may be
    /// reported otherwise, as [`Network::routes_version`](babel_net::Network::routes_version).
    /// `None` if there is no such node.
    pub fn routes_version(&self, node: usize) -> Option<u64>
        ensures { is_some result ≡ is_some (slice_get self.now.ours.speakers node) }
    {
        self.nodes.routes_version(node)
    }

    /// The node, the source address and the octets of the datagram of this number that our nodes
    /// sent, counted from 0. `None` if no such datagram was sent.
    pub fn sent(&self, number: usize) -> Option<(usize, Addr, &[u8])>
        ensures none { IsNone result → slice_get self.now.ours.sent number ≡ None }
        ensures some { IfSome result (λ d. slice_get self.now.ours.sent number ≡ Some (record { node = d.0; source = d.1; octets = d.2.now })) }
    {
        self.nodes.sent(number)
    }

    /// The finite updates that our nodes heard from routers of others, in order. The premises of
    /// the clauses on loops are of these.
    pub fn heard(&self) -> &[HeardUpdate]
        ensures { result.now ≡ self.now.heard }
    {
        self.heard.as_slice()
    }
}

/// Whether the datagram may be heard: from an address that no node has, by a node over an interface
/// that it has.
fn test(owners: &Owners, nodes: &Nodes, heard: &Heard<'_>) -> Result<(), HearFault>
    requires { AreOwners nodes.now.configs owners.now.nodes }
    ensures ok { OnOk result (hear_fault heard.entry.now nodes.now ≡ None) }
    ensures refused { IfErr result (λ fault. hear_fault heard.entry.now nodes.now ≡ Some fault) }
{
    if owners.owner(&heard.source).is_some() {
        return Err(HearFault::OwnAddress);
    }
    nodes.can_hear(heard.node, heard.iface)
}

/// The node hears the datagram, and its updates are recorded, for which there is room.
#[tactic(auto, using(crate::proofs::HeardNetworks::memory_alone))]
fn hear(
    nodes: &mut Nodes,
    recorded: &mut Vec<HeardUpdate>,
    heard: &Heard<'_>,
    updates: &[HeardUpdate],
) -> Result<(), HearFault>
    requires free { hear_fault heard.now nodes.old ≡ None }
    requires updates { updates.now ≡ updates_read (meaning heard.now.octets heard.now.source) }
    requires room { vec_len recorded.old + length updates.now ≤ vec_capacity recorded.old }
    ensures ok { OnOk result (Hears heard.entry.now nodes.old nodes.new recorded.old.items recorded.new.items) }
    ensures refused { IfErr result (λ fault. fault ≡ HearFault.Memory) }
    ensures err { OnErr result ((nodes.new ≡ nodes.old) × (recorded.new.items ≡ recorded.old.items)) }
{
    match nodes.hear(heard)? {
        Hearing::Received => record(recorded, updates),
        Hearing::Refused => {}
    }
    Ok(())
}

/// The node that has the selected route's next hop.
fn gateway_of(owners: &Owners, selected: Option<Selected>) -> Option<usize>
    ensures { result ≡ option_and_then (λ (route : Selected). get addr_cmp owners.now.nodes route.next_hop) selected }
{
    match selected {
        Some(route) => owners.owner(&route.next_hop),
        None => None,
    }
}

fn octets_are_small(octets: &[u8])
    ensures { AreOctets octets.now }
{}

fn addr_is_whole(addr: &Addr)
    ensures { IsAddr addr.now }
{
    match addr {
        Addr::V4(octets) => octets_are_small(octets),
        Addr::V6(octets) => octets_are_small(octets),
    }
}
