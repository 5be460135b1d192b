//! How long next hops change after a change of the plan.

use babel_outcome::{Phase, Quality};

/// How much was sent.
#[derive(Clone, Copy, Default)]
pub(crate) struct Traffic {
    /// How many datagrams.
    pub(crate) datagrams: u64,
    /// How many octets they had.
    pub(crate) octets: u64,
}

impl Traffic {
    /// Adds a datagram of this length.
    pub(crate) fn add(&mut self, octets: usize) {
        self.datagrams = self.datagrams.saturating_add(1);
        self.octets = self.octets.saturating_add(octets as u64);
    }
}

/// What is measured of the phase that runs.
#[derive(Clone, Copy)]
pub(crate) struct Measured {
    from: u64,
    first_step: usize,
    steps: usize,
    changes: usize,
    // what was sent when the phase began
    at_first: Traffic,
    // the moment of the last change, and what was sent until then
    last_change: u64,
    at_last: Traffic,
}

impl Measured {
    /// A phase begins with the step of this number.
    pub(crate) fn new(from: u64, first_step: usize, sent: Traffic) -> Measured {
        Measured {
            from,
            first_step,
            steps: 0,
            changes: 0,
            at_first: sent,
            last_change: from,
            at_last: sent,
        }
    }

    /// Whether the phase began at this moment, with a step or with the run.
    pub(crate) fn began_at(&self, now: u64) -> bool {
        self.from == now
    }

    /// The phase begins with one step more.
    pub(crate) fn add_step(&mut self) {
        self.steps = self.steps.saturating_add(1);
    }

    /// A next hop changed.
    pub(crate) fn add_change(&mut self, now: u64, sent: Traffic) {
        self.changes = self.changes.saturating_add(1);
        self.last_change = now;
        self.at_last = sent;
    }

    /// The phase ends.
    pub(crate) fn end(&self, until: u64, sent: Traffic, quality: Quality) -> Phase {
        Phase {
            from: self.from,
            until,
            first_step: self.first_step,
            steps: self.steps,
            changes: self.changes,
            settled_after: self.last_change.saturating_sub(self.from),
            datagrams: self
                .at_last
                .datagrams
                .saturating_sub(self.at_first.datagrams),
            octets: self.at_last.octets.saturating_sub(self.at_first.octets),
            all_datagrams: sent.datagrams.saturating_sub(self.at_first.datagrams),
            all_octets: sent.octets.saturating_sub(self.at_first.octets),
            quality,
        }
    }
}
