//! Distances, which a source table keeps and feasibility compares (RFC 8966, sections 2.4 and
//! 3.5.1).

ghost use Rattle.std.specs.Prelude.{◌≡◌};
ghost use Rattle.babel_value.specs.Distances.{is_better};

use crate::{Metric, Seqno};

/// A sequence number and a metric (RFC 8966, section 2.4).
#[derive(Clone, Copy, Debug, PartialEq, Eq, Hash)]
pub struct Distance {
    /// The sequence number that the source gave the route (RFC 8966, section 2.5).
    pub seqno: Seqno,
    /// The metric at that sequence number.
    pub metric: Metric,
}

impl Distance {
    /// Whether this distance is strictly better than `other`: a newer sequence number, or the same
    /// one and a smaller metric.
    pub fn better(self, other: Distance) -> bool
        ensures { result ≡ is_better self other }
    {
        other.seqno.less(self.seqno) || (self.seqno == other.seqno && self.metric < other.metric)
    }
}
