//! Laws of the orders and of the code's limits, each the contract of a function.

ghost use Rattle.std.specs.Prelude.{◌≡◌, ◌≤◌, ◌↔◌, IsTrue};
ghost use Rattle.std.specs.Cmp.{IsTotalOrder};
ghost use Rattle.std.specs.FinMap.{IsAntisymmetric};
ghost use Rattle.babel_value.specs.Seqnos.{half_circle, lift};
ghost use Rattle.babel_value.specs.Distances.{is_better, IsBetter};
ghost use Rattle.babel_value.specs.declared.lines.TheConstants.{LINE_ROOM};
ghost use Rattle.babel_value.specs.declared.seqnos.TheConstants.{HALF_CIRCLE};
ghost use Rattle.babel_value.specs.Lines.{line_room};
ghost use Rattle.babel_value.specs.Lifts.{greatest_lift, AgreesOnLifts, LiftsBack};
ghost use Rattle.babel_value.specs.Orders.{family_cmp, addr_cmp, prefix_cmp, octets_cmp, source_cmp, peer_cmp};

use crate::{Addr, Distance, Family, Peer, Prefix, RouterId, Seqno, Source};
use std::cmp::Ordering;

/// The constants of the code are the numbers of the definitions.
pub fn limits_are_those_of_the_code()
    ensures line { LINE_ROOM ≡ line_room }
    ensures half { HALF_CIRCLE ≡ half_circle }
{}

/// Two sequence numbers that are at most 32,767 ahead of a common first one are ordered as the
/// whole numbers that they represent. A count of at most 65,535 from any number is lifted to the
/// count.
pub fn seqnos_agree_on_lifts()
    ensures order { AgreesOnLifts }
    ensures back { LiftsBack }
{}

/// Among such sequence numbers the better distance has the greater whole number, or the same number
/// and the smaller metric.
pub fn distances_agree_on_lifts(start: Seqno, one: Distance, other: Distance)
    requires one { lift start one.seqno ≤ greatest_lift }
    requires other { lift start other.seqno ≤ greatest_lift }
    ensures { IsTrue (is_better one other) ↔ IsBetter (lift start one.seqno) one.metric (lift start other.seqno) other.metric }
{}

/// How two families compare: IPv4 is less than IPv6.
pub fn order_of_families(one: &Family, other: &Family) -> Ordering
    ensures { result ≡ family_cmp one.now other.now }
{
    one.cmp(other)
}

/// How two addresses compare: by family, then octet by octet. The order is total.
#[tactic(auto, using(crate::proofs::OrderLaws::addr_total, crate::proofs::OrderLaws::addr_exact))]
pub fn order_of_addresses(one: &Addr, other: &Addr) -> Ordering
    ensures order { result ≡ addr_cmp one.now other.now }
    ensures total { IsTotalOrder addr_cmp }
    ensures exact { IsAntisymmetric addr_cmp }
{
    one.cmp(other)
}

/// How two prefixes compare: by address, then length. The order is total.
#[tactic(auto, using(crate::proofs::OrderLaws::prefix_total, crate::proofs::OrderLaws::prefix_exact))]
pub fn order_of_prefixes(one: &Prefix, other: &Prefix) -> Ordering
    ensures order { result ≡ prefix_cmp one.now other.now }
    ensures total { IsTotalOrder prefix_cmp }
    ensures exact { IsAntisymmetric prefix_cmp }
{
    one.cmp(other)
}

/// How two router-ids compare: octet by octet. The order is total.
#[tactic(auto, using(crate::proofs::OrderLaws::octets_total, crate::proofs::OrderLaws::octets_exact))]
pub fn order_of_router_ids(one: &RouterId, other: &RouterId) -> Ordering
    ensures order { result ≡ octets_cmp one.now other.now }
    ensures total { IsTotalOrder octets_cmp }
    ensures exact { IsAntisymmetric octets_cmp }
{
    one.cmp(other)
}

/// How two sources compare: by prefix, then router-id. The order is total.
#[tactic(auto, using(crate::proofs::OrderLaws::source_total, crate::proofs::OrderLaws::source_exact))]
pub fn order_of_sources(one: &Source, other: &Source) -> Ordering
    ensures order { result ≡ source_cmp one.now other.now }
    ensures total { IsTotalOrder source_cmp }
    ensures exact { IsAntisymmetric source_cmp }
{
    one.cmp(other)
}

/// How two peers compare: by interface, then address. The order is total.
#[tactic(auto, using(crate::proofs::OrderLaws::peer_total, crate::proofs::OrderLaws::peer_exact))]
pub fn order_of_peers(one: &Peer, other: &Peer) -> Ordering
    ensures order { result ≡ peer_cmp one.now other.now }
    ensures total { IsTotalOrder peer_cmp }
    ensures exact { IsAntisymmetric peer_cmp }
{
    one.cmp(other)
}
