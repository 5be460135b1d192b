//! The links of a node to the nodes before it.
//!
//! Each node but the first is linked to one or two of the nodes before it. So the network is
//! connected, no link is there twice, and no node is linked to itself.

ghost use Rattle.std.specs.Prelude.{◌≡◌, ◌≢◌, ◌<◌, ℕ, Some, IsSome, IfSome};

use crate::MAX_NODES;

/// The shape of a network.
#[derive(Clone, Copy)]
pub enum Shape {
    /// Each node is linked to the next, and the last one to the first.
    Ring,
    /// Each node is linked to the next.
    Line,
    /// The nodes are in rows, each linked to those on its left and above it.
    Grid,
    /// The first node is linked to each other.
    Star,
    /// Each node is linked to one or two nodes before it, at random.
    Random,
}

/// The nodes before a node that it is linked to.
#[derive(Clone, Copy)]
pub struct Parents {
    /// One of them.
    pub first: Option<usize>,
    /// The other one.
    pub second: Option<usize>,
}

/// A network of so many nodes.
#[derive(Clone, Copy)]
pub(crate) struct Layout {
    /// Its shape.
    pub(crate) shape: Shape,
    /// How many nodes it has.
    pub(crate) count: usize,
    /// How many nodes a row of a grid has.
    pub(crate) width: usize,
}

impl Layout {
    /// The network of so many nodes. The rows of a grid are as many as a row has nodes, or one
    /// less, if they can be.
    pub(crate) fn new(shape: Shape, count: usize) -> Layout {
        Layout {
            shape,
            count,
            width: width_of(count),
        }
    }

    /// The nodes before this node that it is linked to.
    pub(crate) fn parents(&self, node: usize, words: (u32, u32)) -> Parents
        ensures first { IfSome result.first (λ p. p < node) }
        ensures second { IfSome result.second (λ p. p < node) }
        ensures connected { 0 < node → IsSome result.first }
        ensures distinct { (p : ℕ) → result.first ≡ Some p → result.second ≢ Some p }
    {
        match self.first(node, words.0) {
            None => Parents {
                first: None,
                second: None,
            },
            Some(first) => {
                let second = self.second(node, first, words.1);
                Parents {
                    first: Some(first),
                    second,
                }
            }
        }
    }

    fn first(&self, node: usize, word: u32) -> Option<usize>
        ensures before { IfSome result (λ p. p < node) }
        ensures connected { 0 < node → IsSome result }
    {
        if node == 0 {
            return None;
        }
        let parent = match self.shape {
            Shape::Ring | Shape::Line => node - 1,
            Shape::Star => 0,
            Shape::Grid => self.first_in_grid(node),
            Shape::Random => word as usize % node,
        };
        Some(parent)
    }

    /// The node on the left, or the one above the first one of a row.
    fn first_in_grid(&self, node: usize) -> usize
        requires { 0 < node }
        ensures { result < node }
    {
        let width = self.width.max(1);
        if node % width == 0 {
            node.saturating_sub(width)
        } else {
            node - 1
        }
    }

    fn second(&self, node: usize, first: usize, word: u32) -> Option<usize>
        requires { first < node }
        ensures before { IfSome result (λ p. p < node) }
        ensures distinct { result ≢ Some first }
    {
        match self.shape {
            Shape::Ring => self.closing(node, first),
            Shape::Grid => self.above(node, first),
            Shape::Random => another(node, first, word),
            Shape::Line | Shape::Star => None,
        }
    }

    /// The first node, which the last one is linked to.
    fn closing(&self, node: usize, first: usize) -> Option<usize>
        requires { first < node }
        ensures before { IfSome result (λ p. p < node) }
        ensures distinct { result ≢ Some first }
    {
        if self.count.checked_sub(1) == Some(node) && first != 0 {
            Some(0)
        } else {
            None
        }
    }

    /// The node above, if the first one is on the left.
    fn above(&self, node: usize, first: usize) -> Option<usize>
        requires { first < node }
        ensures before { IfSome result (λ p. p < node) }
        ensures distinct { result ≢ Some first }
    {
        let above = node.checked_sub(self.width)?;
        if above < node && above != first {
            Some(above)
        } else {
            None
        }
    }
}

/// A node before this one that isn't the first.
fn another(node: usize, first: usize, word: u32) -> Option<usize>
    requires { first < node }
    ensures before { IfSome result (λ p. p < node) }
    ensures distinct { result ≢ Some first }
{
    let parent = word as usize % node;
    if parent != first { Some(parent) } else { None }
}

/// The least width of a square with so many nodes.
fn width_of(count: usize) -> usize {
    let count = count.min(MAX_NODES);
    for width in 1..=64usize {
        if width * width >= count {
            return width;
        }
    }
    64
}
