//! A call that is out of memory returns that and changes nothing, and succeeds when it is made
//! again.

use crate::routers::{prefix, router};
use arrayvec::ArrayVec;
use babel_message::Refusal;
use babel_speaker::Speaker;
use babel_state::{ConfigFault, RecvFault, RestoreFault};
use babel_tlv::DATAGRAM_LEN;
use babel_value::{Addr, Metric};
use std::alloc::Global;

const NEIGHBOUR: Addr = Addr::V4([192, 168, 0, 1]);

/// A Hello.
const HELLO: [u8; 12] = [0x2a, 2, 0, 8, 4, 6, 0, 0, 0, 0, 1, 0x90];

/// A Hello, a cost of 96, and a route of router 1 to 10.0.0.0/8 with metric 7.
const ROUTE: [u8; 49] = [
    0x2a, 2, 0, 45, 4, 6, 0, 0, 0, 1, 1, 0x90, 5, 10, 1, 0, 0, 96, 4, 0xb0, 192, 168, 0, 2, 6, 10,
    0, 0, 0, 0, 0, 0, 0, 0, 0, 1, 8, 11, 1, 0, 8, 0, 6, 0x40, 0, 5, 0, 7, 10,
];

/// Router 2 with seqno 0, no raise and one source: 10.0.0.0/8 of router 1, with seqno 0 and metric
/// 96.
const SNAPSHOT: &[u8] = &[
    0x42, 0x42, 0x53, 0x31, 0, 0, 0, 0, 0, 0, 0, 2, 0, 0, 0, 0, 0, 0, 0, 0, 0, 0, 0, 1, 1, 10, 0,
    0, 0, 0, 0, 0, 0, 0, 0, 0, 0, 0, 0, 0, 0, 8, 0, 0, 0, 0, 0, 0, 0, 1, 0, 0, 0, 0x60,
];

/// The speaker of router 2, or the fault.
fn made(alloc: Global) -> Result<Speaker, ConfigFault> {
    match router(alloc, 2) {
        Ok(config) => Speaker::new(alloc, config),
        Err(_) => Err(ConfigFault::Memory),
    }
}

/// Whether a speaker is made. If an allocation fails, the fault is C7, and a speaker is made again.
fn is_made(alloc: Global) -> bool {
    match made(alloc).err() {
        None => true,
        Some(fault) => fault == ConfigFault::Memory && made(alloc).err().is_none(),
    }
}

#[test]
fn making_always_out_of_memory(rt: HostRuntime) {
    assert!(rt; is_made(rt.alloc()));
}

/// Whether the speaker has no route, and nothing is pending.
fn is_untouched(speaker: &mut Speaker) -> bool {
    let mut octets = ArrayVec::<u8, DATAGRAM_LEN>::new();
    let is_silent = speaker.next_datagram(0, &mut octets).is_none();
    is_silent && speaker.entry(&prefix(), 0).is_none()
}

/// Receives from the neighbour, and returns how many notes there are.
fn received(speaker: &mut Speaker, octets: &[u8]) -> Result<usize, RecvFault> {
    match speaker.receive(0, 0, NEIGHBOUR, octets) {
        Ok(notes) => Ok(notes.len()),
        Err(fault) => Err(fault),
    }
}

/// Whether the datagram is received with so many notes. If an allocation fails, the refusal is P6,
/// nothing has changed, and the datagram is received again.
fn is_received(speaker: &mut Speaker, octets: &[u8], notes: usize) -> bool {
    match received(speaker, octets) {
        Ok(count) => count == notes,
        Err(fault) => {
            fault == RecvFault::Refused(Refusal::Memory)
                && is_untouched(speaker)
                && received(speaker, octets) == Ok(notes)
        }
    }
}

/// Whether the speaker receives the Hello, then the route, and selects it.
fn selects(speaker: &mut Speaker) -> bool {
    is_received(speaker, &HELLO, 1)
        && is_received(speaker, &ROUTE, 4)
        && match speaker.selected(&prefix()) {
            Some(route) => route.metric == Metric(103),
            None => false,
        }
}

/// A sum of the octets that the speaker sends after it has selected the route; 0 if it does not
/// select it.
fn sum_of_sent(speaker: &mut Speaker) -> u64 {
    if !selects(speaker) {
        return 0;
    }
    let mut octets = ArrayVec::<u8, DATAGRAM_LEN>::new();
    let mut sum = 0u64;
    speaker.tick(1200);
    for _ in 0..9 {
        if speaker.next_datagram(1200, &mut octets).is_none() {
            break;
        }
        for octet in &octets {
            sum = sum.rotate_left(5).wrapping_add(u64::from(*octet));
        }
    }
    sum
}

/// That sum of a new speaker. If none is made, one is made again.
fn sum_of_new(alloc: Global) -> u64 {
    for _ in 0..2 {
        if let Ok(mut speaker) = made(alloc) {
            return sum_of_sent(&mut speaker);
        }
    }
    0
}

/// One of the two speakers receives with ample memory.
#[test]
fn receiving_always_out_of_memory(rt: HostRuntime) {
    let sum = sum_of_new(rt.alloc());
    assert!(rt; sum != 0 && sum == sum_of_new(rt.alloc()));
}

/// The speaker of the snapshot, or the fault.
fn restored(alloc: Global) -> Result<Speaker, RestoreFault> {
    match router(alloc, 2) {
        Ok(config) => Speaker::restore(alloc, config, 0, SNAPSHOT),
        Err(_) => Err(RestoreFault::Config(ConfigFault::Memory)),
    }
}

/// Whether the speaker is restored. If an allocation fails, the fault is C7, and the speaker is
/// restored again.
fn is_restored(alloc: Global) -> bool {
    match restored(alloc).err() {
        None => true,
        Some(fault) => {
            fault == RestoreFault::Config(ConfigFault::Memory) && restored(alloc).err().is_none()
        }
    }
}

#[test]
fn restoring_always_out_of_memory(rt: HostRuntime) {
    assert!(rt; is_restored(rt.alloc()));
}

/// Whether the speaker is saved as the snapshot. If an allocation fails, it is saved again.
fn is_saved(speaker: &Speaker) -> bool {
    for _ in 0..2 {
        if let Ok(octets) = speaker.save() {
            return octets.as_slice() == SNAPSHOT;
        }
    }
    false
}

/// Whether a speaker that is restored is saved. If none is, there is nothing to save: `is_restored`
/// restores it again.
fn saves(alloc: Global) -> bool {
    match restored(alloc) {
        Ok(speaker) => is_saved(&speaker),
        Err(_) => true,
    }
}

#[test]
fn saving_always_out_of_memory(rt: HostRuntime) {
    assert!(rt; saves(rt.alloc()));
}
