//! The announcement that a node uses.

ghost use Rattle.std.specs.Prelude.{◌≡◌, Some};

use super::pair::Pair;

/// What a node picked, and from which node.
#[derive(Clone, Copy)]
pub struct Pick {
    /// The node that sent the pair.
    pub from: usize,
    /// What it sent.
    pub pair: Pair,
}

/// The greatest metric that isn't infinite (RFC 8966 section 4.6.9).
const GREATEST_METRIC: u16 = 65534;

impl Pick {
    ghost use Rattle.babel_machine.specs.MachineRefusals.{passed_on};

    /// The pair that its holder passes on under the metric, if that is greater and finite.
    pub fn passed_on(self, metric: u16) -> Option<Pair>
        ensures { result ≡ passed_on (Some self) metric }
    {
        if metric > self.pair.metric && metric <= GREATEST_METRIC {
            Some(Pair {
                raises: self.pair.raises,
                metric,
            })
        } else {
            None
        }
    }
}
