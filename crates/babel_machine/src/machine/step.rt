//! The steps of the machine.

use super::pair::Pair;

/// One step, for one source.
#[derive(Clone, Copy, Debug, PartialEq, Eq)]
pub enum Step {
    /// The source's raise count grows by 1.
    Raise,
    /// A node sends under a metric.
    Announce {
        node: usize,
        metric: u16,
    },
    /// A node picks a pair that another one sent.
    Choose {
        node: usize,
        from: usize,
        pair: Pair,
    },
    /// A node's pick becomes none.
    Drop {
        node: usize,
    },
}
