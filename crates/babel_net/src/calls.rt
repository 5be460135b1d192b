//! The calls of one speaker of a network.

ghost use Rattle.std.specs.Prelude.{◌≡◌, None, true, false, option_map, if◌then◌else◌, IfOk, IfErr, OnOk, OnErr};
ghost use Rattle.babel_value.specs.Prefixes.{PrefixValue};
ghost use Rattle.babel_state.specs.Addresses.{source_fault};
ghost use Rattle.babel_state.specs.Calls.{is_prefix_too_many, set_cost_fault, cost_set, announced_also, withdrawn};
ghost use Rattle.babel_state.specs.Configs.{config_fault};
ghost use Rattle.babel_state.specs.Restarts.{restarted};
ghost use Rattle.babel_state.specs.State.{announces};
ghost use Rattle.babel_state.specs.Invariants.{IsWellFormed};
ghost use Rattle.babel_state.specs.Sameness.{has_prefix};
ghost use Rattle.babel_net.specs.declared.calls.Way.{Way};
ghost use Rattle.babel_net.specs.EventRefusals.{node_of, call_fault, cost_fault, interface_fault, IsFaultOrMemory};
ghost use Rattle.babel_net.specs.HearFaults.{iface_fault, IsHearFault};
ghost use Rattle.babel_net.specs.Hearing.{HearsAs};
ghost use Rattle.babel_net.specs.Invariants.{IsReadable};
ghost use Rattle.babel_speaker.specs.Sending.{draft_at};
ghost use Rattle.babel_net.specs.Steps.{step_of, IsSent, Received};

use crate::hearing::{HearFault, Heard, Hearing};
use crate::node_speakers::NodeSpeaker;
use crate::sent::Sent;
use arrayvec::ArrayVec;
use babel_machine::{Event, StepFault};
use babel_message::Refusal;
use babel_state::laws::{datagrams_send, items_mean_messages};
use babel_state::{Config, ConfigFault, RecvFault, RestoreFault, SetCostFault, Target};
use babel_tlv::DATAGRAM_LEN;
use babel_value::{Addr, Prefix};

/// The node that an event is of.
pub fn node_of(event: &Event) -> usize
    ensures { result ≡ node_of event.now }
{
    match *event {
        Event::Tick { node, .. } => node,
        Event::Emit { node, .. } => node,
        Event::Deliver { node, .. } => node,
        Event::SetCost { node, .. } => node,
        Event::Raise { node } => node,
        Event::RequestSeqnos { node, .. } => node,
        Event::LoseLinks { node, .. } => node,
        Event::GroupItems { node } => node,
        Event::Announce { node, .. } => node,
        Event::Withdraw { node, .. } => node,
        Event::Restart { node, .. } => node,
    }
}

/// Makes the event's step of its node's speaker, if it is a call that takes no memory.
pub(crate) fn call(
    speaker: &mut NodeSpeaker,
    config: &Config,
    event: &Event,
) -> Result<(), StepFault>
    requires { (prefix : PrefixValue) → has_prefix prefix config.now.prefixes.items ≡ true → is_prefix_too_many prefix speaker.old ≡ false }
    ensures ok { OnOk result (speaker.new ≡ step_of event.now speaker.old) }
    ensures accepted { OnOk result (call_fault config.now speaker.old event.now ≡ None) }
    ensures refused { IfErr result (λ fault. call_fault config.now speaker.old event.now ≡ Some fault) }
    ensures err { OnErr result (speaker.new ≡ speaker.old) }
{
    match *event {
        Event::Tick { now, .. } => {
            speaker.tick(now);
            Ok(())
        }
        Event::SetCost { iface, cost, .. } => set_cost(speaker, iface, cost),
        Event::Raise { .. } => {
            speaker.raise();
            Ok(())
        }
        Event::RequestSeqnos { now, .. } => {
            speaker.request_seqnos(now);
            Ok(())
        }
        Event::LoseLinks { iface, now, .. } => {
            speaker.lose_links(now, iface);
            Ok(())
        }
        Event::GroupItems { .. } => {
            speaker.group_items();
            Ok(())
        }
        Event::Announce { prefix, .. } => announce(speaker, config, prefix),
        Event::Withdraw { prefix, .. } => withdraw(speaker, config, prefix),
        Event::Emit { .. } => Ok(()),
        Event::Deliver { .. } => Ok(()),
        Event::Restart { .. } => Ok(()),
    }
}

/// Sets the nominal cost of an interface.
fn set_cost(speaker: &mut NodeSpeaker, iface: u8, cost: u16) -> Result<(), StepFault>
    ensures ok { OnOk result (speaker.new ≡ cost_set iface cost speaker.old) }
    ensures accepted { OnOk result (set_cost_fault iface cost speaker.old ≡ None) }
    ensures refused { IfErr result (λ fault. option_map cost_fault (set_cost_fault iface cost speaker.old) ≡ Some fault) }
    ensures err { OnErr result (speaker.new ≡ speaker.old) }
{
    match speaker.set_cost(iface, cost) {
        Ok(()) => Ok(()),
        Err(SetCostFault::NoInterface) => Err(StepFault::NoInterface),
        Err(SetCostFault::CostOutOfRange) => Err(StepFault::CostOutOfRange),
    }
}

/// Whether the configuration lists the prefix.
fn lists(config: &Config, prefix: &Prefix) -> bool
    ensures { result ≡ has_prefix prefix.now config.now.prefixes.items }
{
    config
        .prefixes
        .iter()
        .any(|listed| prefix.cmp(listed).is_eq())
}

/// Announces a prefix of the configuration.
fn announce(speaker: &mut NodeSpeaker, config: &Config, prefix: Prefix) -> Result<(), StepFault>
    requires { has_prefix prefix config.now.prefixes.items ≡ true → is_prefix_too_many prefix speaker.old ≡ false }
    ensures ok { OnOk result (speaker.new ≡ announced_also prefix speaker.old) }
    ensures accepted { OnOk result (has_prefix prefix config.now.prefixes.items ≡ true) }
    ensures refused { IfErr result (λ fault. (has_prefix prefix config.now.prefixes.items ≡ false) × (fault ≡ StepFault.NotListed)) }
    ensures err { OnErr result (speaker.new ≡ speaker.old) }
{
    if !lists(config, &prefix) {
        return Err(StepFault::NotListed);
    }
    match speaker.announce(prefix) {
        Ok(()) => Ok(()),
        Err(_) => unreachable!(),
    }
}

/// Announces a prefix of the configuration no longer.
fn withdraw(speaker: &mut NodeSpeaker, config: &Config, prefix: Prefix) -> Result<(), StepFault>
    ensures ok { OnOk result (speaker.new ≡ withdrawn prefix speaker.old) }
    ensures accepted { OnOk result ((has_prefix prefix config.now.prefixes.items ≡ true) × (announces prefix speaker.old ≡ true)) }
    ensures refused { IfErr result (λ fault. (if has_prefix prefix config.now.prefixes.items then (if announces prefix speaker.old then None else Some StepFault.NotAnnounced) else Some StepFault.NotListed) ≡ Some fault) }
    ensures err { OnErr result (speaker.new ≡ speaker.old) }
{
    if !lists(config, &prefix) {
        return Err(StepFault::NotListed);
    }
    match speaker.withdraw(prefix) {
        Ok(()) => Ok(()),
        Err(_) => Err(StepFault::NotAnnounced),
    }
}

/// Where a datagram comes from, and where it goes.
#[derive(Clone, Copy)]
pub(crate) struct Way {
    /// The source address.
    pub(crate) source: Addr,
    /// Where it goes.
    pub(crate) target: Target,
}

/// The way of the next datagram of a node's speaker, if there is one. Its octets are written to
/// `octets`, in place of what was there.
pub(crate) fn send(
    speaker: &mut NodeSpeaker,
    node: usize,
    now: u64,
    octets: &mut ArrayVec<u8, DATAGRAM_LEN>,
) -> Option<Way>
    requires { IsWellFormed speaker.old }
    ensures state { speaker.new ≡ (draft_at now speaker.old).state }
    ensures sent { IsSent node speaker.old (draft_at now speaker.old) (draft_at now speaker.old).target (option_map (λ (way : Way). record { node = node; source = way.source; octets = octets.new.items }) result) }
    ensures target { option_map (λ (way : Way). way.target) result ≡ (draft_at now speaker.old).target }
{
    datagrams_send();
    items_mean_messages();
    let target = speaker.next_datagram(now, octets)?;
    match speaker.transport(target.iface) {
        Some(source) => Some(Way { source, target }),
        None => unreachable!(),
    }
}

/// The speaker receives a recorded datagram over an interface. From an address that the interface
/// takes no datagrams from, nothing is received.
#[tactic(auto, unfolding(babel_state::specs::Addresses::source_fault))]
pub(crate) fn receive(
    speaker: &mut NodeSpeaker,
    sent: &Sent<'_>,
    iface: u8,
    now: u64,
) -> Result<(), StepFault>
    requires { IsReadable sent.now }
    ensures ok { OnOk result (Received now iface sent.now (source_fault iface sent.now.source speaker.old) speaker.old speaker.new) }
    ensures accepted { OnOk result (interface_fault iface speaker.old ≡ None) }
    ensures refused { IfErr result (IsFaultOrMemory (interface_fault iface speaker.old)) }
    ensures err { OnErr result (speaker.new ≡ speaker.old) }
{
    match speaker.receive(now, iface, sent.source(), sent.octets()) {
        Ok(_) => Ok(()),
        Err(RecvFault::NoInterface) => Err(StepFault::NoInterface),
        Err(RecvFault::ForeignSource) => Ok(()),
        Err(RecvFault::OwnSource) => Ok(()),
        Err(RecvFault::Refused(_)) => Err(StepFault::Memory),
    }
}

/// The speaker receives octets from an address that no node has. It refuses those from an address
/// that the interface takes no datagrams from, and those that can't be read.
#[tactic(auto, unfolding(babel_state::specs::Addresses::source_fault))]
pub(crate) fn hear(speaker: &mut NodeSpeaker, heard: &Heard<'_>) -> Result<Hearing, HearFault>
    ensures ok { IfOk result (λ hearing. HearsAs hearing heard.entry.now speaker.old speaker.new) }
    ensures accepted { OnOk result (iface_fault heard.entry.now.iface speaker.old ≡ None) }
    ensures refused { IfErr result (IsHearFault (iface_fault heard.entry.now.iface speaker.old)) }
    ensures err { OnErr result (speaker.new ≡ speaker.old) }
{
    match speaker.receive(heard.now, heard.iface, heard.source, heard.octets) {
        Ok(_) => Ok(Hearing::Received),
        Err(RecvFault::NoInterface) => Err(HearFault::NoInterface),
        Err(RecvFault::Refused(Refusal::Memory)) => Err(HearFault::Memory),
        Err(_) => Ok(Hearing::Refused),
    }
}

/// The speaker restarts: it is saved, and restored with its configuration in its own place.
#[tactic(auto, using(crate::proofs::CallFaults::own_router))]
pub(crate) fn restart(speaker: &mut NodeSpeaker, config: &Config, now: u64) -> Result<(), StepFault>
    requires router { speaker.old.router ≡ config.now.router_id }
    requires valid { config_fault config.now ≡ None }
    ensures ok { OnOk result (speaker.new ≡ restarted now config.now speaker.old) }
    ensures refused { IfErr result (λ fault. fault ≡ StepFault.Memory) }
    ensures err { OnErr result (speaker.new ≡ speaker.old) }
{
    match speaker.restart(config, now) {
        Ok(()) => Ok(()),
        Err(RestoreFault::Config(ConfigFault::Memory)) => Err(StepFault::Memory),
        Err(_) => unreachable!(),
    }
}
