//! Where the update after the last one is likely to be.

use crate::ROUTE_PLACES;
use babel_choice::Cursor;
use babel_value::{Addr, Peer};

/// For how many neighbours the place of their last update is known.
const LANES: usize = 64;

/// The places of an update in the tables, or how far they are from those of another, modulo 65,536.
/// Each table has fewer places.
#[derive(Clone, Copy)]
struct Places {
    entry: u16,
    selection: u16,
    source: u16,
}

impl Places {
    /// No places, and none is a step from them.
    const NOWHERE: Places = Places {
        entry: u16::MAX,
        selection: u16::MAX,
        source: u16::MAX,
    };

    /// No step: the same places.
    const SAME: Places = Places {
        entry: 0,
        selection: 0,
        source: 0,
    };

    /// The places that these are a step from.
    fn after(self, step: Places) -> Cursor {
        Cursor {
            entry: index_after(self.entry, step.entry),
            selection: index_after(self.selection, step.selection),
            source: index_after(self.source, step.source),
        }
    }

    /// The step to other places.
    fn step_to(self, to: Places) -> Places {
        Places {
            entry: to.entry.wrapping_sub(self.entry),
            selection: to.selection.wrapping_sub(self.selection),
            source: to.source.wrapping_sub(self.source),
        }
    }
}

/// In which order the updates of each neighbour came so far. It only matters for speed: a router
/// sends its updates in the same order again and again, so the next one mostly is as far from this
/// one as it was the last time. A datagram mostly goes on where the neighbour's last one ended.
#[derive(Drop)]
pub struct Trail {
    /// Where the last update was.
    last: Places,
    /// The lane of the neighbour whose datagram it is.
    lane: usize,
    /// By lane, where the last update of the neighbour's last datagram was.
    lanes: [Places; LANES],
    /// By the index of a route, the step from its update to the one after it.
    steps: [Places; ROUTE_PLACES],
}

impl Trail {
    /// No update has come yet.
    pub fn new() -> Trail {
        Trail {
            last: Places::NOWHERE,
            lane: 0,
            lanes: [Places::NOWHERE; LANES],
            steps: [Places::SAME; ROUTE_PLACES],
        }
    }

    /// A datagram of a neighbour begins that isn't known.
    pub fn begin(&mut self) {
        self.enter(LANES);
    }

    /// A datagram of the neighbour begins.
    pub fn begin_from(&mut self, peer: &Peer) {
        self.enter(lane_of(peer));
    }

    /// The updates of a lane begin, where its last ones ended. One that is past all begins nowhere.
    fn enter(&mut self, lane: usize) {
        if let Some(left) = self.lanes.get_mut(self.lane) {
            *left = self.last;
        }
        self.lane = lane;
        self.last = match self.lanes.get(lane) {
            Some(last) => *last,
            None => Places::NOWHERE,
        };
    }

    /// Where the next update is likely to be.
    pub fn next(&self) -> Cursor {
        let step = match self.steps.get(usize::from(self.last.entry)) {
            Some(step) => *step,
            None => Places::SAME,
        };
        self.last.after(step)
    }

    /// The next update was there.
    pub fn push(&mut self, places: Cursor) {
        self.push_copied(&places);
    }

    /// The same of a cursor that is copied.
    pub fn push_copied(&mut self, found: &Cursor) {
        let places = Places {
            entry: low_bits(found.entry),
            selection: low_bits(found.selection),
            source: low_bits(found.source),
        };
        if let Some(known) = self.steps.get_mut(usize::from(self.last.entry)) {
            *known = self.last.step_to(places);
        }
        self.last = places;
    }
}

/// The lane of a neighbour, by the last octet of its address. Two may share one, but 64 whose
/// addresses follow each other don't.
fn lane_of(peer: &Peer) -> usize {
    let last = match &peer.addr {
        Addr::V4(octets) => octets[3],
        Addr::V6(octets) => octets[15],
    };
    usize::from(last) % LANES
}

/// The index after a step.
fn index_after(index: u16, step: u16) -> usize {
    usize::from(index.wrapping_add(step))
}

/// The index modulo 65,536.
fn low_bits(index: usize) -> u16 {
    (index % 65_536) as u16
}
