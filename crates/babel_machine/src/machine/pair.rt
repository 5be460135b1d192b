//! What one announcement carries for its source.

ghost use Rattle.std.specs.Prelude.{◌↔◌, IsTrue, All, Contains};

/// A number of the source's raise count and a metric.
#[derive(Clone, Copy, Debug, PartialEq, Eq)]
pub struct Pair {
    /// The source's raise count when its owner began this announcement.
    pub raises: u64,
    /// The metric that it was passed on with.
    pub metric: u16,
}

impl Pair {
    ghost use Rattle.babel_machine.specs.Machine.{IsBetterPair};

    /// Whether it has a greater number than the other, or the same and a smaller metric.
    pub fn is_better(self, other: Pair) -> bool
        ensures { IsTrue result ↔ IsBetterPair self other }
    {
        self.raises > other.raises || self.raises == other.raises && self.metric < other.metric
    }

    /// Whether it is better than each of the others.
    pub fn is_best(self, others: &[Pair]) -> bool
        ensures { IsTrue result ↔ All (λ other. IsBetterPair self other) others.now }
    {
        others.iter().all(|other| self.is_better(*other))
    }

    /// Whether it is one of these.
    pub fn is_among(self, pairs: &[Pair]) -> bool
        ensures { IsTrue result ↔ Contains pairs.now self }
    {
        pairs.contains(&self)
    }
}
