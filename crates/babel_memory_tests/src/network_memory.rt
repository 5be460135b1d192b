//! A call that is out of memory returns that and changes nothing, and succeeds when it is made
//! again. If a network is not made, a test of its calls has nothing to test: `is_network_made`
//! makes it again.

use crate::routers::{prefix, router};
use babel_net::{Event, NetFault, Network, StepFault};
use babel_state::{Config, ConfigFault};
use std::alloc::{AllocError, Global};

const COUNT: usize = 14;

/// Node 0 announces 10.0.0.0/8, and node 1 selects it.
const EVENTS: [Event; COUNT] = [
    Event::Tick { node: 0, now: 0 },
    Event::Emit { node: 0, now: 0 },
    Event::Tick { node: 1, now: 0 },
    Event::Emit { node: 1, now: 0 },
    Event::Deliver {
        datagram: 1,
        node: 0,
        iface: 0,
        now: 0,
    },
    Event::Deliver {
        datagram: 0,
        node: 1,
        iface: 0,
        now: 0,
    },
    Event::Tick { node: 0, now: 1200 },
    Event::Tick { node: 1, now: 1200 },
    Event::Emit { node: 1, now: 1200 },
    Event::Deliver {
        datagram: 2,
        node: 0,
        iface: 0,
        now: 1200,
    },
    Event::Emit { node: 0, now: 1200 },
    Event::Deliver {
        datagram: 3,
        node: 1,
        iface: 0,
        now: 1200,
    },
    Event::Emit { node: 1, now: 1200 },
    Event::Restart { node: 1, now: 1200 },
];

/// The routers 1 and 2 on one link, of which the first announces 10.0.0.0/8.
pub(crate) fn configs(alloc: Global) -> Result<Vec<Config>, AllocError> {
    let mut first = router(alloc, 1)?;
    first.prefixes.push(prefix())?;
    let second = router(alloc, 2)?;
    Ok(vec![in alloc; first, second]?)
}

/// The network of them, or the fault.
fn network(alloc: Global) -> Result<Network, NetFault> {
    match configs(alloc) {
        Ok(configs) => Network::new(alloc, configs),
        Err(_) => Err(NetFault::Memory),
    }
}

/// M6, or M7 with C7.
pub(crate) fn is_memory(fault: NetFault) -> bool {
    match fault {
        NetFault::Memory => true,
        NetFault::BadConfig { fault, .. } => fault == ConfigFault::Memory,
        _ => false,
    }
}

/// Whether the network is made. If an allocation fails, the fault is one of these, and the network
/// is made again.
fn is_network_made(alloc: Global) -> bool {
    match network(alloc).err() {
        None => true,
        Some(fault) => is_memory(fault) && network(alloc).err().is_none(),
    }
}

#[test]
fn network_always_out_of_memory(rt: HostRuntime) {
    assert!(rt; is_network_made(rt.alloc()));
}

/// The next hop of node 1, and for each datagram that was sent a sum of its octets.
type Returned = (Option<usize>, [u64; 8]);

fn observe(net: &Network) -> Returned {
    let mut sums = [0; 8];
    for (number, sum) in sums.iter_mut().enumerate() {
        if let Some((_, _, octets)) = net.sent(number) {
            *sum = sum_of(octets);
        }
    }
    (net.next_hop(1, &prefix()), sums)
}

fn sum_of(octets: &[u8]) -> u64 {
    let mut sum = 1u64;
    for octet in octets {
        sum = sum.rotate_left(5).wrapping_add(u64::from(*octet));
    }
    sum
}

/// Whether the step is made. If an allocation fails, the fault is N6, nothing has changed, and the
/// step is made again.
fn is_made(net: &mut Network, event: &Event) -> bool {
    let before = observe(net);
    match net.step(event) {
        Ok(()) => true,
        Err(fault) => fault == StepFault::Memory
            && observe(net) == before
            && net.step(event).is_ok(),
    }
}

/// Whether the steps are made.
fn are_made(net: &mut Network, events: &[Event]) -> bool {
    for event in events {
        if !is_made(net, event) {
            return false;
        }
    }
    true
}

/// Whether all steps are made, and five datagrams sent. The test of the runs compares what the
/// network returns.
fn all_are_made(net: &mut Network) -> bool {
    are_made(net, &EVENTS) && net.sent(4).is_some()
}

#[test]
fn steps_out_of_memory_change_nothing(rt: HostRuntime) {
    if let Ok(mut net) = network(rt.alloc()) {
        assert!(rt; all_are_made(&mut net));
    }
}

/// How many events a run makes: all, or those before the one at which an allocation fails.
fn count_made(ran: Result<(), (usize, StepFault)>) -> usize {
    match ran {
        Ok(()) => COUNT,
        Err((index, StepFault::Memory)) => index,
        Err(_) => usize::MAX,
    }
}

/// Runs the events in one network, and makes their steps in the other: both return the same when
/// the run stops, and at the end.
fn run_as_steps(ran: &mut Network, stepped: &mut Network) -> bool {
    let events = EVENTS;
    let count = count_made(ran.run(&events));
    match events.split_at_checked(count) {
        Some((before, rest)) => {
            are_made(stepped, before)
                && observe(ran) == observe(stepped)
                && ran.run(rest).is_ok()
                && are_made(stepped, rest)
                && observe(ran) == observe(stepped)
        }
        None => false,
    }
}

/// Whether a network runs as another one makes the steps. One of the two has ample memory.
fn runs(ran: &mut Network, alloc: Global) -> bool {
    match network(alloc) {
        Ok(mut stepped) => run_as_steps(ran, &mut stepped),
        Err(_) => true,
    }
}

#[test]
fn runs_out_of_memory_stop_before_the_event(rt: HostRuntime) {
    if let Ok(mut ran) = network(rt.alloc()) {
        assert!(rt; runs(&mut ran, rt.alloc()));
    }
}
