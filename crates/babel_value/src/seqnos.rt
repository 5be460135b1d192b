//! Sequence numbers (RFC 8966, section 3.2.1).

ghost use Rattle.std.specs.Prelude.{Some, ◌≡◌};
ghost use Rattle.std.specs.Fmt.{decimal};
ghost use Rattle.babel_value.specs.Seqnos.{is_before, next_seqno};

use std::fmt;
use std::fmt::Display;
use std::marker::Model;

/// A sequence number: 16 bits around a circle (RFC 8966, section 3.2.1).
///
/// It has no `Ord`, since the circular order isn't transitive. `less` is the order of the RFC.
#[derive(Clone, Copy, Debug, PartialEq, Eq, Hash)]
pub struct Seqno(pub u16);

impl Model for Seqno {
    ghost use Rattle.std.specs.Prelude.{ℕ};

    ghost Value = { ℕ };

    ghost view = { λ s. s.0 };

    ghost inverse = { λ n. record { 0 = n } };
}

/// Half of the circle: numbers this far apart are ordered neither way.
const HALF_CIRCLE: u16 = 0x8000;

impl Seqno {
    /// Whether this number comes before `other`, by less than half of the circle (RFC 8966, section
    /// 3.2.1).
    pub fn less(self, other: Seqno) -> bool
        ensures { result ≡ is_before self other }
    {
        let ahead = other.0.wrapping_sub(self.0);
        0 < ahead && ahead < HALF_CIRCLE
    }

    /// The number after this one, 0 after 65535.
    pub fn next(self) -> Seqno
        ensures { result ≡ next_seqno self }
    {
        Seqno(self.0.wrapping_add(1))
    }
}

/// In decimal.
impl fmt::Display for Seqno {
    ghost output = { λ seqno. Some (decimal seqno) };

    fn fmt<W: fmt::Write>(&self, f: &mut fmt::Formatter<W>) -> fmt::Result {
        self.0.fmt(f)
    }
}
