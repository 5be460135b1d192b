//! The calls of the neighbours take no memory but that of the table: `tests/refused-memory` counts
//! the allocations, so this module's name is without that word. What the calls return is tested in
//! `tests/unproved/layers`, in `link_tests`.

use arrayvec::ArrayVec;
use babel_link::Neighbours;
use babel_value::{Addr, Metric, Peer, Seqno};

const NOMINAL: Metric = Metric(256);

fn peer(last: u8) -> Peer {
    Peer {
        iface: 0,
        addr: Addr::V4([192, 168, 0, last]),
    }
}

/// Hellos of both kinds, of which one is late and two flush the neighbour, and an IHU: whether
/// there is room for it.
fn hears(neighbours: &mut Neighbours, peer: Peer) -> bool {
    for (unicast, seqno, interval) in [
        (false, 7, 100),
        (false, 9, 0),
        (false, 8, 100),
        (true, 100, 0),
        (true, 200, 100),
        (false, 40, 100),
        (false, 80, 100),
        (false, 81, 100),
    ] {
        if neighbours
            .hello(0, peer, unicast, Seqno(seqno), interval)
            .is_err()
        {
            return false;
        }
    }
    neighbours.ihu(0, peer, Metric(96), 100)
}

/// Whether the link to the peer is up.
fn is_up(neighbours: &Neighbours, peer: Peer) -> bool {
    neighbours.known(peer)
        && neighbours.rxcost(peer, NOMINAL) == NOMINAL
        && neighbours.cost(peer, NOMINAL) == Metric(96)
}

/// Whether these are the first neighbour and the last one.
fn is_between(neighbours: &Neighbours, first: Peer, last: Peer) -> bool {
    neighbours.peers().next() == Some(first)
        && neighbours.at(63) == Some(last)
        && neighbours.at(64).is_none()
}

/// How many neighbours go, since no Hello comes any more: the IHU is too old first.
fn go(neighbours: &mut Neighbours) -> usize {
    let mut gone = ArrayVec::<Peer, 64>::new();
    let mut count = 0usize;
    for tick in 0..20 {
        neighbours.tick(150 + 100 * tick, &mut gone);
        count = count.saturating_add(gone.len());
    }
    count
}

/// Whether there is room for 64 neighbours and no more, and the links to them are up.
fn is_filled(neighbours: &mut Neighbours) -> bool {
    for last in (0..64).rev() {
        if !hears(neighbours, peer(last)) || !is_up(neighbours, peer(last)) {
            return false;
        }
    }
    is_between(neighbours, peer(0), peer(63)) && !hears(neighbours, peer(64))
}

/// `neighbours_without_memory` tests that the table is made.
#[test]
fn calls_of_a_full_table(rt: HostRuntime) {
    if let Ok(mut neighbours) = Neighbours::new(rt.alloc()) {
        assert!(rt; is_filled(&mut neighbours) && go(&mut neighbours) == 64);
    }
}
