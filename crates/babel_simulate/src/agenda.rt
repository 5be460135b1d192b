//! What happens next.

use babel_topology::End;
use std::alloc::{AllocError, Global};
use std::collections::BTreeMap;

/// A datagram on a link.
#[derive(Clone, Copy)]
pub(crate) struct Arrival {
    /// The number of the datagram.
    pub(crate) datagram: usize,
    /// The number of the link.
    pub(crate) link: usize,
    /// Where it arrives.
    pub(crate) to: End,
}

/// Something that happens at a moment.
#[derive(Clone, Copy)]
pub(crate) enum Entry {
    /// The expectation of this number is tested.
    Expectation(usize),
    /// The step of the plan of this number is made.
    Step(usize),
    /// The node of this number is due.
    Wake(usize),
    /// A datagram arrives.
    Arrival(Arrival),
}

/// What happens, in the order of the moments, and at one moment in the order in which it was added.
#[derive(Drop)]
pub(crate) struct Agenda {
    entries: BTreeMap<(u64, u64), Entry>,
    count: u64,
}

impl Agenda {
    pub(crate) fn new(alloc: Global) -> Agenda {
        Agenda {
            entries: BTreeMap::new(alloc),
            count: 0,
        }
    }

    /// Adds what happens at a moment.
    pub(crate) fn push(&mut self, at: u64, entry: Entry) -> Result<(), AllocError> {
        self.entries.insert((at, self.count), entry)?;
        self.count = self.count.saturating_add(1);
        Ok(())
    }

    /// How many things are still to happen. Datagrams on links are most of them.
    pub(crate) fn len(&self) -> usize {
        self.entries.len()
    }

    /// Takes what happens first, with its moment.
    pub(crate) fn pop(&mut self) -> Option<(u64, Entry)> {
        match self.entries.pop_first() {
            Some(((at, _), entry)) => Some((at, entry)),
            None => None,
        }
    }
}
