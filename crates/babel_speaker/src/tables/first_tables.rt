//! The first tables of a speaker, by its configuration.

ghost use Rattle.std.specs.Prelude.{◌≡◌, ◌≤◌, ◌<◌, ◌+◌, ◌++◌, ◌∷◌, [], None, length, map, vec_len, vec_capacity, IsNone, IfSome};
ghost use Rattle.std.specs.FinMap.{put};
ghost use Rattle.babel_value.specs.Orders.{prefix_cmp};
ghost use Rattle.babel_state.specs.Calls.{new_interface};
ghost use Rattle.babel_state.specs.Configs.{config_fault};
ghost use Rattle.babel_state.specs.State.{gathered};
ghost use Rattle.babel_state.specs.Limits.{most_prefixes};

use crate::tables::{Announced, Interfaces};
use babel_state::{Config, Interface, InterfaceEntry};
use babel_value::{Metric, Prefix, Seqno};
use std::alloc::Global;

/// The interface as it is configured: its first Hello has seqno 0, and no timer is set.
fn new_interface(interface: &Interface) -> InterfaceEntry
    ensures { result ≡ new_interface interface.now }
{
    InterfaceEntry {
        transport: interface.transport,
        ipv4: interface.ipv4,
        ipv6: interface.ipv6,
        cost: Metric(interface.cost),
        hello: interface.hello,
        hello_seqno: Seqno(0),
        hello_due: None,
        ihu_due: None,
        update_due: None,
    }
}

/// Writes one more interface into room that is there.
fn push_interface(entries: &mut Vec<InterfaceEntry>, interface: &Interface)
    requires { vec_len entries.old < vec_capacity entries.old }
    ensures entries { entries.new.items ≡ entries.old.items ++ new_interface interface.now ∷ [] }
    ensures len { vec_len entries.new ≡ vec_len entries.old + 1 }
    ensures capacity { vec_capacity entries.old ≤ vec_capacity entries.new }
{
    entries.push_reserved(new_interface(interface));
}

/// Writes the interfaces into room that is there, in their order.
fn push_interfaces(entries: &mut Vec<InterfaceEntry>, interfaces: &[Interface])
    requires room { vec_len entries.old + length interfaces.now ≤ vec_capacity entries.old }
    ensures { entries.new.items ≡ entries.old.items ++ map new_interface interfaces.now }
{
    for interface in interfaces {
        push_interface(entries, interface);
    }
}

/// The interfaces as they are configured; `None`: an allocation failed.
#[tactic(auto, using(crate::proofs::FirstTables::few_interfaces, crate::proofs::FirstTables::short_hellos))]
pub fn first_interfaces(alloc: Global, config: &Config) -> Option<Interfaces>
    requires { IsNone (config_fault config.now) }
    ensures { IfSome result (λ interfaces. interfaces ≡ map new_interface config.now.interfaces.items) }
{
    let Ok(mut entries) = Vec::with_capacity(alloc, config.interfaces.len()) else {
        return None;
    };
    push_interfaces(&mut entries, &config.interfaces);
    Some(Interfaces::new(entries))
}

/// Adds a prefix to those that are announced. The search for it begins at the index `near`.
fn put_prefix(announced: &mut Announced, prefix: Prefix, near: &mut usize)
    requires room { length announced.old < most_prefixes }
    ensures { announced.new ≡ put prefix_cmp prefix tt announced.old }
{
    let _ = announced.insert_near(prefix, near);
}

/// The same. There is at most one prefix more.
fn insert_prefix(announced: &mut Announced, prefix: Prefix, near: &mut usize)
    requires room { length announced.old < most_prefixes }
    ensures prefixes { announced.new ≡ put prefix_cmp prefix tt announced.old }
    ensures few { length announced.new ≤ length announced.old + 1 }
{
    put_prefix(announced, prefix, near);
}

/// Adds each of the prefixes to those that are announced. Prefixes that rise are one pass.
fn insert_prefixes(announced: &mut Announced, prefixes: &[Prefix])
    requires room { length announced.old + length prefixes.now ≤ most_prefixes }
    ensures { announced.new ≡ gathered prefixes.now announced.old }
{
    let mut near = 0;
    for prefix in prefixes {
        insert_prefix(announced, *prefix, &mut near);
    }
}

/// The configured prefixes; `None`: an allocation failed.
#[tactic(auto, using(crate::proofs::FirstTables::few_prefixes))]
pub fn first_announced(alloc: Global, config: &Config) -> Option<Announced>
    requires { IsNone (config_fault config.now) }
    ensures { IfSome result (λ announced. announced ≡ gathered config.now.prefixes.items []) }
{
    let Ok(mut announced) = Announced::new(alloc) else {
        return None;
    };
    insert_prefixes(&mut announced, &config.prefixes);
    Some(announced)
}

/// Announces the configured prefixes, and no others.
#[tactic(auto, using(crate::proofs::FirstTables::few_prefixes))]
pub fn announce_configured(announced: &mut Announced, config: &Config)
    requires { IsNone (config_fault config.now) }
    ensures { announced.new ≡ gathered config.now.prefixes.items [] }
{
    announced.clear();
    insert_prefixes(announced, &config.prefixes);
}
