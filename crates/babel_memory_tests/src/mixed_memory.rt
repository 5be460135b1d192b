//! A network among routers of others: a datagram that is heard out of memory changes nothing, and
//! neither does an event of ours. If a network is not made, there is nothing to test: `is_made`
//! makes it again.

use crate::network_memory::{configs, is_memory};
use crate::routers::prefix;
use babel_mixed::{HearFault, Heard, MixedEvent, MixedFault, MixedNetwork};
use babel_net::{Event, NetFault, StepFault};
use babel_value::Addr;
use std::alloc::Global;

/// The address of a router of others.
const OTHER: Addr = Addr::V4([192, 168, 0, 9]);

/// Node 1 hears Hello 0 from it.
const HELLO: Heard<'static> = Heard {
    node: 1,
    iface: 0,
    source: OTHER,
    octets: &[0x2a, 2, 0, 8, 4, 6, 0, 0, 0, 0, 1, 0x90],
    now: 0,
};

/// Node 1 hears Hello 1, an IHU to 192.168.0.2, the router-id 9, and an Update of 10.0.0.0/8 with
/// seqno 7 and metric 5.
const UPDATE: Heard<'static> = Heard {
    node: 1,
    iface: 0,
    source: OTHER,
    octets: &[
        0x2a, 2, 0, 0x2d, 4, 6, 0, 0, 0, 1, 1, 0x90, 5, 10, 1, 0, 0, 0x60, 4, 0xb0, 192, 168, 0, 2,
        6, 10, 0, 0, 0, 0, 0, 0, 0, 0, 0, 9, 8, 11, 1, 0x80, 8, 0, 6, 0x40, 0, 7, 0, 5, 10,
    ],
    now: 400,
};

const COUNT: usize = 5;

/// Node 1 hears the route, and sends a datagram before and after it: the Tick queues a Hello, and
/// the route an Update.
const EVENTS: [MixedEvent<'static>; COUNT] = [
    MixedEvent::Heard(HELLO),
    MixedEvent::Ours(Event::Tick { node: 1, now: 0 }),
    MixedEvent::Ours(Event::Emit { node: 1, now: 0 }),
    MixedEvent::Heard(UPDATE),
    MixedEvent::Ours(Event::Emit { node: 1, now: 400 }),
];

/// Whether node 1 has a selected route, how many updates were heard, and whether a first, a second
/// and a third datagram were sent.
type Seen = (bool, usize, [bool; 3]);

/// What is seen before each of the events, and at the end.
const SEEN: [Seen; COUNT + 1] = [
    (false, 0, [false, false, false]),
    (false, 0, [false, false, false]),
    (false, 0, [false, false, false]),
    (false, 0, [true, false, false]),
    (true, 1, [true, false, false]),
    (true, 1, [true, true, false]),
];

fn seen(net: &MixedNetwork) -> Seen {
    let sent = [
        net.sent(0).is_some(),
        net.sent(1).is_some(),
        net.sent(2).is_some(),
    ];
    (net.router(1, &prefix()).is_some(), net.heard().len(), sent)
}

/// The network of two routers, or the fault.
fn network(alloc: Global) -> Result<MixedNetwork, NetFault> {
    match configs(alloc) {
        Ok(configs) => MixedNetwork::new(alloc, configs),
        Err(_) => Err(NetFault::Memory),
    }
}

/// Hears the datagram. If an allocation fails, the fault is N6, nothing has changed, and it is
/// heard again.
fn is_heard(net: &mut MixedNetwork, heard: &Heard<'_>) -> bool {
    let before = seen(net);
    match net.hear(heard) {
        Ok(()) => true,
        Err(fault) => fault == HearFault::Memory && seen(net) == before && net.hear(heard).is_ok(),
    }
}

/// Whether node 1 restarts: the selected route is gone, and what was heard is still there. If an
/// allocation fails, the fault is N6, nothing has changed, and it restarts when that is asked
/// again.
fn restarts(net: &mut MixedNetwork) -> bool {
    let restart = Event::Restart { node: 1, now: 500 };
    let before = seen(net);
    if let Err(fault) = net.step(&restart) {
        if fault != StepFault::Memory || seen(net) != before || net.step(&restart).is_err() {
            return false;
        }
    }
    seen(net) == (false, 1, [false; 3])
}

/// Whether the selected route of node 1 is over the router of others.
fn is_foreign(net: &MixedNetwork) -> bool {
    match net.selected(1, &prefix()) {
        Some(route) => route.next_hop == OTHER,
        None => false,
    }
}

/// Whether node 1 hears both datagrams, and selects the route of the router of others.
fn selects(net: &mut MixedNetwork) -> bool {
    is_heard(net, &HELLO)
        && seen(net) == (false, 0, [false; 3])
        && is_heard(net, &UPDATE)
        && seen(net) == (true, 1, [false; 3])
        && is_foreign(net)
}

/// Whether the network is made. If an allocation fails, the fault is that of a network of ours, and
/// the network is made again.
fn is_made(alloc: Global) -> bool {
    match network(alloc).err() {
        None => true,
        Some(fault) => is_memory(fault) && network(alloc).err().is_none(),
    }
}

/// Whether the calls do what they should, if a network is made.
fn calls(alloc: Global) -> bool {
    match network(alloc) {
        Ok(mut net) => selects(&mut net) && restarts(&mut net),
        Err(_) => true,
    }
}

#[test]
fn calls_out_of_memory_change_nothing(rt: HostRuntime) {
    assert!(rt; is_made(rt.alloc()) && calls(rt.alloc()));
}

/// How many events a run makes: all, or those before the one at which an allocation fails.
fn count_made(ran: Result<(), (usize, MixedFault)>) -> usize {
    match ran {
        Ok(()) => COUNT,
        Err((index, MixedFault::Ours(StepFault::Memory) | MixedFault::Heard(HearFault::Memory))) =>
            index,
        Err(_) => usize::MAX,
    }
}

/// Runs the events. If an allocation fails, the fault is N6 at an event, what is seen is what it is
/// before that event, and the rest is run again.
fn are_run(net: &mut MixedNetwork) -> bool {
    let events = EVENTS;
    let count = count_made(net.run(&events));
    match (SEEN.get(count), events.get(count..)) {
        (Some(stopped), Some(rest)) => {
            seen(net) == *stopped
                && net.run(rest).is_ok()
                && seen(net) == SEEN[COUNT]
                && is_foreign(net)
        }
        _ => false,
    }
}

#[test]
fn mixed_runs_out_of_memory_stop_before_the_event(rt: HostRuntime) {
    if let Ok(mut net) = network(rt.alloc()) {
        assert!(rt; are_run(&mut net));
    }
}
