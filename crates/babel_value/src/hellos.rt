//! The two kinds of Hellos.

ghost use Rattle.std.specs.Prelude.{◌≡◌};
ghost use Rattle.babel_value.specs.Hellos.{is_unicast};

/// A kind of Hellos: each has seqnos and a history of its own (RFC 8966, section 3.4.1).
#[derive(Clone, Copy, Debug, PartialEq, Eq)]
pub enum HelloKind {
    /// To all neighbours of an interface.
    Multicast,
    /// To one neighbour.
    Unicast,
}

impl HelloKind {
    /// The kind of a Hello by its U flag (RFC 8966, section 4.6.5).
    #[inline]
    pub fn of(unicast: bool) -> HelloKind
        ensures { is_unicast result ≡ unicast }
    {
        if unicast {
            HelloKind::Unicast
        } else {
            HelloKind::Multicast
        }
    }
}
