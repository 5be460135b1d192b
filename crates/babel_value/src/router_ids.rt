//! Router-ids (RFC 8966, section 4.1.3).

ghost use Rattle.std.specs.Prelude.{◌≡◌, Some, false, refl};
ghost use Rattle.std.specs.Ordering.{as_partial_cmp};
ghost use Rattle.babel_value.specs.RouterIds.{router_id_of, is_reserved};
ghost use Rattle.babel_value.specs.Orders.{octets_cmp};
ghost use Rattle.babel_value.specs.Texts.{router_text};
ghost use Rattle.babel_value.specs.OrderLaws.{octets_total, router_ties, router_partial_order};

use crate::Line;
use crate::orders::{are_equal8, compare8};
use std::cmp::Ordering;
use std::fmt;
use std::fmt::Display;
use std::marker::Model;

/// A router-id: 8 octets that name a router in the whole network. All zeros and all ones are
/// reserved (RFC 8966, section 4.1.3), and no `RouterId` is one of the two.
#[derive(Clone, Copy, Debug, PartialEq, Eq, Hash)]
pub struct RouterId {
    octets: [u8; 8],
}

impl Model for RouterId {
    ghost use Rattle.std.specs.Prelude.{◌≡◌, List, ℕ, false};
    ghost use Rattle.babel_value.specs.RouterIds.{is_reserved};

    ghost Value = { List ℕ };

    ghost view = { λ r. r.octets };

    ghost invariant = { λ r. is_reserved r.octets ≡ false };

    ghost inverse = { λ octets. record { octets = octets } };
}

impl Ord for RouterId {
    ghost cmp = { octets_cmp };

    ghost total = { octets_total };

    ghost matches_partial_cmp = { λ one other. refl };

    ghost matches_eq = { router_ties };

    #[inline]
    fn cmp(&self, other: &RouterId) -> Ordering {
        compare8(&self.octets, &other.octets)
    }
}

impl PartialOrd for RouterId {
    ghost partial_cmp = { as_partial_cmp octets_cmp };

    ghost laws = { router_partial_order };

    #[inline]
    fn partial_cmp(&self, other: &RouterId) -> Option<Ordering> {
        Some(self.cmp(other))
    }
}

impl RouterId {
    /// The router-id of these octets, `None` exactly if they are one of the two reserved ones.
    #[inline]
    pub fn new(octets: [u8; 8]) -> Option<RouterId>
        ensures { result ≡ router_id_of octets }
    {
        if are_equal8(&octets, &[0x00; 8]) || are_equal8(&octets, &[0xff; 8]) {
            return None;
        }
        Some(RouterId { octets })
    }

    /// The octets where they are.
    #[inline]
    pub(crate) fn octets_ref(&self) -> &[u8; 8]
        ensures { result.now ≡ self.now }
    {
        &self.octets
    }

    /// The octets, in the order of the wire.
    pub fn octets(self) -> [u8; 8]
        ensures value { result ≡ self }
        ensures named { is_reserved result ≡ false }
    {
        self.octets
    }
}

/// 16 hexadecimal digits in lower case.
impl fmt::Display for RouterId {
    ghost output = { λ router. Some (router_text router) };

    fn fmt<W: fmt::Write>(&self, f: &mut fmt::Formatter<W>) -> fmt::Result {
        let mut line = Line::new();
        line.push_router_id(*self);
        line.fmt(f)
    }
}
