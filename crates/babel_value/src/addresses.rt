//! Addresses and their families (RFC 8966, section 4.1.4).

ghost use Rattle.std.specs.Prelude.{◌≡◌, Some, replicate, refl};
ghost use Rattle.std.specs.Ordering.{as_partial_cmp};
ghost use Rattle.babel_value.specs.Addresses.{family_of, width_of};
ghost use Rattle.babel_value.specs.Orders.{addr_cmp};
ghost use Rattle.babel_value.specs.Texts.{addr_text};
ghost use Rattle.babel_value.specs.OrderLaws.{addr_total, addr_ties, addr_partial_order};

use crate::Line;
use crate::orders::{compare4, compare16};
use std::cmp::Ordering;
use std::fmt;
use std::fmt::Display;

/// A family of addresses. IPv4 comes before IPv6.
#[derive(Clone, Copy, Debug, PartialEq, Eq, PartialOrd, Ord, Hash)]
pub enum Family {
    /// 4 octets.
    Ipv4,
    /// 16 octets.
    Ipv6,
}

/// An address, in the order of the wire.
#[derive(Clone, Copy, Debug, PartialEq, Eq, Hash)]
pub enum Addr {
    /// An IPv4 address.
    V4([u8; 4]),
    /// An IPv6 address.
    V6([u8; 16]),
}

/// 0.0.0.0, which fills the unused elements of an array.
impl Default for Addr {
    fn default() -> Addr
        ensures { result ≡ Addr.V4 (replicate 4 0) }
    {
        Addr::V4([0; 4])
    }
}

/// IPv4 comes before IPv6.
impl Ord for Addr {
    ghost cmp = { addr_cmp };

    ghost total = { addr_total };

    ghost matches_partial_cmp = { λ one other. refl };

    ghost matches_eq = { addr_ties };

    #[inline]
    fn cmp(&self, other: &Addr) -> Ordering {
        match (self, other) {
            (Addr::V4(one), Addr::V4(other)) => compare4(one, other),
            (Addr::V4(_), Addr::V6(_)) => Ordering::Less,
            (Addr::V6(_), Addr::V4(_)) => Ordering::Greater,
            (Addr::V6(one), Addr::V6(other)) => compare16(one, other),
        }
    }
}

impl PartialOrd for Addr {
    ghost partial_cmp = { as_partial_cmp addr_cmp };

    ghost laws = { addr_partial_order };

    #[inline]
    fn partial_cmp(&self, other: &Addr) -> Option<Ordering> {
        Some(self.cmp(other))
    }
}

impl Addr {
    /// The family of the address.
    pub fn family(&self) -> Family
        ensures { result ≡ family_of self.now }
    {
        match self {
            Addr::V4(_) => Family::Ipv4,
            Addr::V6(_) => Family::Ipv6,
        }
    }

    /// How many bits the address has: 32 or 128.
    pub fn width(&self) -> u8
        ensures { result ≡ width_of self.now }
    {
        match self {
            Addr::V4(_) => 32,
            Addr::V6(_) => 128,
        }
    }
}

/// IPv4 as four decimal numbers with points; IPv6 as eight groups of lower case hexadecimal digits
/// without leading zeros and without `::`.
impl fmt::Display for Addr {
    ghost output = { λ addr. Some (addr_text addr) };

    fn fmt<W: fmt::Write>(&self, f: &mut fmt::Formatter<W>) -> fmt::Result {
        let mut line = Line::new();
        line.push_addr(self);
        line.fmt(f)
    }
}
