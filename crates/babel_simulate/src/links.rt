//! The links, as they are at a moment.

use babel_topology::{End, Link, Topology};
use std::alloc::{AllocError, Global};

/// Whether something works.
#[derive(Clone, Copy)]
pub(crate) enum Condition {
    /// It works.
    Up,
    /// It doesn't.
    Down,
}

impl Condition {
    pub(crate) fn is_up(self) -> bool {
        matches!(self, Condition::Up)
    }
}

/// A link at a moment.
#[derive(Clone, Copy)]
pub(crate) struct LinkState {
    /// The link, with the loss and the cost that it has now.
    pub(crate) link: Link,
    /// Whether it carries datagrams.
    pub(crate) condition: Condition,
}

/// A way from a node to a neighbour.
#[derive(Clone, Copy)]
pub(crate) struct Way {
    /// The number of the link.
    pub(crate) link: usize,
    /// The number of the node's interface.
    pub(crate) iface: usize,
    /// The other end.
    pub(crate) far: End,
}

/// The links, and the ways from each node over them.
#[derive(Drop)]
pub(crate) struct Links {
    states: Vec<LinkState>,
    ways: Vec<Vec<Way>>,
}

impl Links {
    /// No links.
    pub(crate) fn new(alloc: Global) -> Links {
        Links {
            states: Vec::new(alloc),
            ways: Vec::new(alloc),
        }
    }

    /// Adds the links of a topology, which all work.
    pub(crate) fn add_all(&mut self, alloc: Global, topology: &Topology) -> Result<(), AllocError> {
        for _ in 0..topology.nodes.len() {
            self.ways.push(Vec::new(alloc))?;
        }
        for (number, link) in topology.links.iter().enumerate() {
            self.states.push(LinkState {
                link: *link,
                condition: Condition::Up,
            })?;
            self.add_way(number, link.a, link.b)?;
            self.add_way(number, link.b, link.a)?;
        }
        Ok(())
    }

    /// Adds the way over the link from one of its ends to the other.
    fn add_way(&mut self, link: usize, near: End, far: End) -> Result<(), AllocError> {
        if let Some(ways) = self.ways.get_mut(near.node) {
            ways.push(Way {
                link,
                iface: near.iface,
                far,
            })?;
        }
        Ok(())
    }

    /// The link of this number.
    pub(crate) fn get(&self, link: usize) -> Option<LinkState> {
        self.states.get(link).copied()
    }

    /// All links.
    pub(crate) fn states(&self) -> &[LinkState] {
        self.states.as_slice()
    }

    /// The ways from the node.
    pub(crate) fn ways(&self, node: usize) -> &[Way] {
        match self.ways.get(node) {
            Some(ways) => ways,
            None => &[],
        }
    }

    /// The link from a node to a neighbour, if it carries datagrams.
    pub(crate) fn between(&self, node: usize, next: usize) -> Option<Link> {
        for way in self.ways(node) {
            if way.far.node == next {
                let state = self.get(way.link)?;
                return if state.condition.is_up() {
                    Some(state.link)
                } else {
                    None
                };
            }
        }
        None
    }

    /// The link of this number, which may change.
    pub(crate) fn get_mut(&mut self, link: usize) -> Option<&mut LinkState> {
        self.states.get_mut(link)
    }
}
