//! Metrics and link costs (RFC 8966, section 3.5.2).

ghost use Rattle.std.specs.Prelude.{Some, ◌≡◌, nat_lt};
ghost use Rattle.std.specs.Fmt.{decimal};
ghost use Rattle.babel_value.specs.Metrics.{infinity, metric_sum};

use std::fmt;
use std::fmt::Display;
use std::marker::Model;

/// A metric, or the cost of a link: 65535 is infinity (RFC 8966, section 3.5.2).
#[derive(Clone, Copy, Debug, PartialEq, Eq, PartialOrd, Ord, Hash)]
pub struct Metric(pub u16);

impl Model for Metric {
    ghost use Rattle.std.specs.Prelude.{ℕ};

    ghost Value = { ℕ };

    ghost view = { λ m. m.0 };

    ghost inverse = { λ n. record { 0 = n } };
}

impl Metric {
    /// The metric of an unreachable destination.
    pub const INFINITE: Metric = Metric(u16::MAX);

    /// The metric over a link of this cost. A sum of 65535 or more is infinity.
    pub fn add(self, cost: Metric) -> Metric
        ensures { result ≡ metric_sum self cost }
    {
        Metric(self.0.saturating_add(cost.0))
    }

    /// Whether it is less than infinity.
    pub fn is_finite(self) -> bool
        ensures { result ≡ nat_lt self infinity }
    {
        self.0 < Metric::INFINITE.0
    }
}

/// In decimal, 65535 for infinity.
impl fmt::Display for Metric {
    ghost output = { λ metric. Some (decimal metric) };

    fn fmt<W: fmt::Write>(&self, f: &mut fmt::Formatter<W>) -> fmt::Result {
        self.0.fmt(f)
    }
}
