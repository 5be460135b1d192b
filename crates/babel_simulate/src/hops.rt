//! The next hops of the nodes, and the prefixes that they announce, as they are at a moment.

use babel_topology::NextHop;
use std::alloc::{AllocError, Global};

/// Whether a node announces a prefix.
#[derive(Clone, Copy)]
pub(crate) enum Origin {
    /// It never does.
    Foreign,
    /// It is configured with the prefix, and doesn't announce it.
    Withheld,
    /// It does.
    Announced,
}

/// A node's next hop to a prefix, and whether it announces the prefix.
#[derive(Clone, Copy)]
struct State {
    hop: NextHop,
    origin: Origin,
}

/// The states by node and then by prefix.
#[derive(Drop)]
pub(crate) struct Hops {
    prefixes: usize,
    states: Vec<State>,
}

impl Hops {
    /// Those of no nodes.
    pub(crate) fn new(alloc: Global) -> Hops {
        Hops {
            prefixes: 0,
            states: Vec::new(alloc),
        }
    }

    /// No next hops, and nothing is announced.
    pub(crate) fn of(alloc: Global, nodes: usize, prefixes: usize) -> Result<Hops, AllocError> {
        let state = State {
            hop: NextHop::Unreachable,
            origin: Origin::Foreign,
        };
        let states = vec![in alloc; state; nodes.saturating_mul(prefixes)]?;
        Ok(Hops { prefixes, states })
    }

    fn index(&self, node: usize, prefix: usize) -> usize {
        node.saturating_mul(self.prefixes).saturating_add(prefix)
    }

    /// The next hop of a node.
    pub(crate) fn get(&self, node: usize, prefix: usize) -> NextHop {
        match self.states.get(self.index(node, prefix)) {
            Some(state) => state.hop,
            None => NextHop::Unreachable,
        }
    }

    /// The node has this next hop from now on.
    pub(crate) fn set(&mut self, node: usize, prefix: usize, hop: NextHop) {
        let index = self.index(node, prefix);
        if let Some(state) = self.states.get_mut(index) {
            state.hop = hop;
        }
    }

    /// Whether the node announces the prefix.
    pub(crate) fn origin(&self, node: usize, prefix: usize) -> Origin {
        match self.states.get(self.index(node, prefix)) {
            Some(state) => state.origin,
            None => Origin::Foreign,
        }
    }

    /// Whether the node announces the prefix.
    pub(crate) fn announces(&self, node: usize, prefix: usize) -> bool {
        matches!(self.origin(node, prefix), Origin::Announced)
    }

    /// From now on the node announces the prefix, or not.
    pub(crate) fn set_origin(&mut self, node: usize, prefix: usize, origin: Origin) {
        let index = self.index(node, prefix);
        if let Some(state) = self.states.get_mut(index) {
            state.origin = origin;
        }
    }
}
