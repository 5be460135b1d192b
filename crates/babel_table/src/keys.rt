//! Keys of tables, and how a look-up sees the key that it looks for.

ghost use Rattle.std.specs.Prelude.{◌≡◌, ◌+◌};
ghost use Rattle.std.specs.declared.cmp.Ordering.{Ordering};
ghost use Rattle.std.specs.Cmp.{IsTotalOrder};
ghost use Rattle.std.specs.FinMap.{IsAntisymmetric};
ghost use Rattle.babel_value.specs.Orders.{prefix_cmp, source_cmp};
ghost use Rattle.babel_value.proofs.OrderLaws.{prefix_total, prefix_exact, source_total, source_exact};

use crate::Steps;
use babel_value::{Prefix, Source};
use std::cmp::Ordering;
use std::sync::ledger::Ledger;

/// A key of a table. A table compares keys by `compare` alone, so the steps that it counts are the
/// comparisons of keys.
pub trait Key: Copy {
    ghost order: { Self → Self → Ordering };

    /// The order of this key and the other one. It is one step.
    fn compare<L: Ledger>(&self, other: &Self, steps: &mut Steps<L>) -> Ordering
        ensures returned { result ≡ order self.now other.now }
        ensures counted { steps.new ≡ steps.old + 1 };

    ghost total: { IsTotalOrder order };

    ghost exact: { IsAntisymmetric order };
}

/// The key that a look-up looks for. The look-up can only compare it with keys of the table, and
/// each comparison is a step of the counter `Steps<L>` of its caller.
pub trait Sought<L: Ledger, K: Key> {
    ghost key: { Self → K };

    /// The order of the sought key and a key of the table. It is one step.
    fn compare_with(&self, other: &K, steps: &mut Steps<L>) -> Ordering
        ensures returned { result ≡ K.order (key self.now) other.now }
        ensures counted { steps.new ≡ steps.old + 1 };
}

/// A key is sought as it is.
impl<L: Ledger, K: Key> Sought<L, K> for K {
    ghost key = { λ key. key };

    fn compare_with(&self, other: &K, steps: &mut Steps<L>) -> Ordering {
        self.compare(other, steps)
    }
}

/// Prefixes are ordered by address, IPv4 first, then by length.
impl Key for Prefix {
    ghost order = { prefix_cmp };

    ghost total = { prefix_total };

    ghost exact = { prefix_exact };

    fn compare<L: Ledger>(&self, other: &Prefix, steps: &mut Steps<L>) -> Ordering {
        steps.tick();
        self.cmp(other)
    }
}

/// Sources are ordered by prefix, then by router-id.
impl Key for Source {
    ghost order = { source_cmp };

    ghost total = { source_total };

    ghost exact = { source_exact };

    fn compare<L: Ledger>(&self, other: &Source, steps: &mut Steps<L>) -> Ordering {
        steps.tick();
        self.cmp(other)
    }
}
