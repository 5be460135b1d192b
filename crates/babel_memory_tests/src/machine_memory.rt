//! Allocations of the machine that fail.

use crate::machines::one_source;
use babel_machine::MachineFault::{MayNotPick, Memory};
use babel_machine::machine::Machine;

/// No memory has room for this many nodes.
#[test]
fn a_machine_too_large_for_memory_is_refused(rt: HostRuntime) {
    let machine = one_source(rt.alloc(), usize::MAX);
    assert!(rt; machine.err() == Some(Memory));
}

/// Whether node 0 announces. If the allocation fails, the fault is A5, and nothing has changed:
/// what would have been sent can't be picked. The same call is then Ok.
fn announces(machine: &mut Machine, raises: u64) -> bool {
    match machine.announce(0, 0, 0) {
        Ok(()) => true,
        Err(fault) => {
            fault == Memory
                && machine.pick(1, 0, 0, raises, 0) == Err(MayNotPick)
                && machine.announce(0, 0, 0).is_ok()
        }
    }
}

/// Whether node 1 can pick all that was sent: it is still there.
fn picks_each(machine: &mut Machine, raises: u64) -> bool {
    for sent in 0..=raises {
        if machine.pick(1, 0, 0, sent, 0).is_err() {
            return false;
        }
    }
    machine.next_hop(1, 0) == Some(0)
}

/// Whether node 0 announces between 20 raises, and node 1 picks.
fn goes_on(machine: &mut Machine) -> bool {
    for raises in 0..20 {
        if !announces(machine, raises)
            || !picks_each(machine, raises)
            || machine.raise(0).is_err()
        {
            return false;
        }
    }
    true
}

/// Run by `rt try --test --fail-alloc N` for each N, as well as by itself.
#[test]
fn a_call_refused_for_memory_changes_nothing(rt: HostRuntime) {
    match one_source(rt.alloc(), 3) {
        Ok(mut machine) => assert!(rt; goes_on(&mut machine)),
        Err(fault) => assert!(rt; fault == Memory && one_source(rt.alloc(), 3).err().is_none()),
    }
}
