//! A record of a snapshot: a source and its feasibility distance, in 30 octets.

ghost use Rattle.std.specs.Prelude.{◌≡◌, Some, IsSome, take, drop, length, replicate};
ghost use Rattle.std.specs.Ordering.{is_lt};
ghost use Rattle.std.specs.Str.{bytes_eq};
ghost use Rattle.babel_value.specs.Orders.{octets_cmp};
ghost use Rattle.babel_value.specs.Prefixes.{cleared_addr};
ghost use Rattle.babel_value.specs.RouterIds.{router_id_of};
ghost use Rattle.babel_state.specs.Sameness.{is_same_addr};
ghost use Rattle.babel_snapshot.specs.Layout as layout;
ghost use Rattle.babel_snapshot.specs.Reading.{addr_in, prefix_with, prefix_in, source_in, distance_in, record_in};

use crate::layout::source_record::{ADDR, FILLING, IPV4, IPV6, LENGTH, METRIC, ROUTER_ID, SEQNO};
use crate::layout::{IPV4_LEN, IPV6_LEN, ROUTER_ID_LEN};
use babel_value::{Addr, Distance, Metric, Prefix, RouterId, Seqno, Source, keep_bits};
use byteorder::{BigEndian, ByteOrder};

/// The IPv4 address.
fn ipv4_in(octets: &[u8]) -> Addr
    requires { length octets.now ≡ layout.record_len }
    ensures { result ≡ Addr.V4 (take layout.ipv4_len (drop layout.record_addr octets.now)) }
{
    let mut addr = [0; IPV4_LEN];
    addr.copy_from_slice(&octets[ADDR..ADDR + IPV4_LEN]);
    Addr::V4(addr)
}

/// The IPv6 address.
fn ipv6_in(octets: &[u8]) -> Addr
    requires { length octets.now ≡ layout.record_len }
    ensures { result ≡ Addr.V6 (take layout.ipv6_len (drop layout.record_addr octets.now)) }
{
    let mut addr = [0; IPV6_LEN];
    addr.copy_from_slice(&octets[ADDR..ADDR + IPV6_LEN]);
    Addr::V6(addr)
}

/// Whether the octets after an IPv4 address are zeros. They are read as two numbers.
#[tactic(auto, using(crate::proofs::Zeros::filled))]
fn is_filled(octets: &[u8]) -> bool
    requires { length octets.now ≡ layout.record_len }
    ensures { result ≡ bytes_eq (take layout.filling_len (drop layout.record_filling octets.now)) (replicate layout.filling_len 0) }
{
    let first = BigEndian::read_u64(&octets[FILLING..]);
    let last = BigEndian::read_u32(&octets[FILLING + 8..]);
    first == 0 && last == 0
}

/// The address, if the octets encode one.
fn addr_in(octets: &[u8]) -> Option<Addr>
    requires { length octets.now ≡ layout.record_len }
    ensures { result ≡ addr_in octets.now }
{
    match octets[0] {
        IPV4 if is_filled(octets) => Some(ipv4_in(octets)),
        IPV6 => Some(ipv6_in(octets)),
        _ => None,
    }
}

/// Whether an IPv4 address has no bits past the length.
#[tactic(auto, using(crate::proofs::ClearBits::four_clear))]
fn is_clear(octets: &[u8; IPV4_LEN], length: u8) -> bool
    ensures { result ≡ is_same_addr (cleared_addr length (Addr.V4 octets.now)) (Addr.V4 octets.now) }
{
    let [a, b, c, d] = *octets;
    let second = length.saturating_sub(8);
    let third = second.saturating_sub(8);
    let fourth = third.saturating_sub(8);
    let a_is_kept = keep_bits(a, length) == a;
    let b_is_kept = keep_bits(b, second) == b;
    let c_is_kept = keep_bits(c, third) == c;
    let d_is_kept = keep_bits(d, fourth) == d;
    a_is_kept & b_is_kept & c_is_kept & d_is_kept
}

/// The prefix of this IPv4 address and length, if no bit past the length is set.
#[tactic(auto, using(crate::proofs::ClearBits::same_addr))]
fn ipv4_with(length: u8, octets: &[u8; IPV4_LEN]) -> Option<Prefix>
    ensures { result ≡ prefix_with length (Addr.V4 octets.now) }
{
    if length <= 32 && is_clear(octets, length) {
        Some(Prefix::new_unchecked(Addr::V4(*octets), length))
    } else {
        None
    }
}

/// The prefix of this address and length, if no bit past the length is set.
fn prefix_with(length: u8, addr: Addr) -> Option<Prefix>
    ensures { result ≡ prefix_with length addr }
{
    if let Addr::V4(octets) = &addr {
        return ipv4_with(length, octets);
    }
    let prefix = Prefix::new(addr, length)?;
    let is_clear = prefix.addr().cmp(&addr).is_eq();
    if is_clear { Some(prefix) } else { None }
}

/// The prefix, if the octets encode one.
#[tactic(auto, unfolding(crate::specs::Reading::prefix_in))]
fn prefix_in(octets: &[u8]) -> Option<Prefix>
    requires { length octets.now ≡ layout.record_len }
    ensures { result ≡ prefix_in octets.now }
{
    let addr = addr_in(octets)?;
    prefix_with(octets[LENGTH], addr)
}

/// The router-id, unless it is reserved.
fn router_in(octets: &[u8]) -> Option<RouterId>
    requires { length octets.now ≡ layout.record_len }
    ensures { result ≡ router_id_of (take layout.router_id_len (drop layout.record_router octets.now)) }
{
    let mut router = [0; ROUTER_ID_LEN];
    router.copy_from_slice(&octets[ROUTER_ID..ROUTER_ID + ROUTER_ID_LEN]);
    RouterId::new(router)
}

/// The source of the prefix and of the router-id, unless that is reserved.
#[tactic(auto, unfolding(crate::specs::Reading::source_in))]
fn source_of(prefix: Prefix, octets: &[u8]) -> Option<Source>
    requires len { length octets.now ≡ layout.record_len }
    requires prefix { prefix_in octets.now ≡ Some prefix }
    ensures { result ≡ source_in octets.now }
{
    let router = router_in(octets)?;
    Some(Source { prefix, router })
}

/// The source, if the octets encode one.
#[tactic(auto, unfolding(crate::specs::Reading::source_in))]
fn source_in(octets: &[u8]) -> Option<Source>
    requires { length octets.now ≡ layout.record_len }
    ensures { result ≡ source_in octets.now }
{
    let prefix = prefix_in(octets)?;
    source_of(prefix, octets)
}

/// The seqno and the metric.
#[tactic(auto, unfolding(crate::specs::Reading::distance_in))]
fn distance_in(octets: &[u8]) -> Distance
    requires { length octets.now ≡ layout.record_len }
    ensures { result ≡ distance_in octets.now }
{
    Distance {
        seqno: Seqno(BigEndian::read_u16(&octets[SEQNO..])),
        metric: Metric(BigEndian::read_u16(&octets[METRIC..])),
    }
}

/// The source with the distance, if that is finite.
#[tactic(auto, unfolding(crate::specs::Reading::record_in))]
fn record_of(source: Source, octets: &[u8]) -> Option<(Source, Distance)>
    requires len { length octets.now ≡ layout.record_len }
    requires source { source_in octets.now ≡ Some source }
    ensures { result ≡ record_in octets.now }
{
    let distance = distance_in(octets);
    if distance.metric.is_finite() {
        Some((source, distance))
    } else {
        None
    }
}

/// The source and its distance, if the octets encode one that is finite.
#[tactic(auto, unfolding(crate::specs::Reading::record_in))]
pub(crate) fn record_in(octets: &[u8]) -> Option<(Source, Distance)>
    requires { length octets.now ≡ layout.record_len }
    ensures { result ≡ record_in octets.now }
{
    let source = source_in(octets)?;
    record_of(source, octets)
}

/// The address of a record that has one, which isn't tested again.
#[tactic(auto, using(crate::proofs::TestedRecords::ipv4_is_there, crate::proofs::TestedRecords::ipv6_is_there))]
fn tested_addr(octets: &[u8]) -> Addr
    requires len { length octets.now ≡ layout.record_len }
    requires addr { IsSome (addr_in octets.now) }
    ensures { addr_in octets.now ≡ Some result }
{
    if octets[0] == IPV4 {
        ipv4_in(octets)
    } else {
        ipv6_in(octets)
    }
}

/// The prefix of a record that has one, which isn't tested again.
#[tactic(auto, using(crate::proofs::TestedRecords::addr_is_there, crate::proofs::TestedRecords::length_is_short, crate::proofs::TestedRecords::bits_are_clear))]
fn tested_prefix(octets: &[u8]) -> Prefix
    requires len { length octets.now ≡ layout.record_len }
    requires prefix { IsSome (prefix_in octets.now) }
    ensures { prefix_in octets.now ≡ Some result }
{
    let addr = tested_addr(octets);
    Prefix::new_unchecked(addr, octets[LENGTH])
}

/// The source and its distance of a record that has them, which isn't tested again.
#[tactic(auto, using(crate::proofs::TestedRecords::prefix_is_there), unfolding(crate::specs::Reading::record_in))]
pub(crate) fn tested_record(octets: &[u8]) -> Option<(Source, Distance)>
    requires len { length octets.now ≡ layout.record_len }
    requires record { IsSome (record_in octets.now) }
    ensures { result ≡ record_in octets.now }
{
    let prefix = tested_prefix(octets);
    let source = source_of(prefix, octets)?;
    record_of(source, octets)
}

/// Whether the source of the first record comes before that of the second one.
pub(crate) fn is_less(first: &[u8], second: &[u8]) -> bool
    requires first { length first.now ≡ layout.record_len }
    requires second { length second.now ≡ layout.record_len }
    ensures { result ≡ is_lt (octets_cmp (take layout.source_len first.now) (take layout.source_len second.now)) }
{
    let first = &first[..SEQNO];
    let second = &second[..SEQNO];
    first.cmp(second).is_lt()
}
