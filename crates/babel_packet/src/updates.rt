//! Update, and the retractions that it encodes (RFC 8966, section 4.6.9).

ghost use Rattle.std.specs.Prelude.{◌≡◌, ◌≤◌, ◌<◌, ◌+◌, length, drop, None, Some, IsTrue, IfSome, vec_len, vec_capacity};
ghost use Rattle.babel_value.specs.Prefixes.{cleared};
ghost use Rattle.babel_message.specs.Layout as layout;
ghost use Rattle.babel_packet.specs.Numbers as numbers;
ghost use Rattle.babel_packet.specs.Numbers.{octet};
ghost use Rattle.babel_packet.specs.Contents.{put};
ghost use Rattle.babel_packet.specs.Tails.{after_tail};
ghost use Rattle.babel_packet.specs.Prefixes.{bits_of};
ghost use Rattle.babel_packet.specs.UpdateFields as fields;
ghost use Rattle.babel_packet.specs.LookBack.{router_of_ipv4, router_of_ipv6};
ghost use Rattle.babel_packet.specs.Updates.{update, update4, update6, update_of, wildcard};
ghost use Rattle.babel_packet.specs.Running.{after};

use crate::numbers::{has_flag, word};
use crate::parser_state::ParserState;
use crate::placements::{push_ignored, push_message};
use crate::prefixes::{is_whole, octets_of, prefix_octets};
use crate::tails::{is_taken, tail_reason};
use babel_message::layout::addresses::{
    AE_IPV4, AE_IPV6, AE_WILDCARD, IPV4_LEN, IPV6_LEN, ROUTER_ID_LEN,
};
use babel_message::layout::update as wire;
use babel_message::{Message, Placed, Reason};
use babel_value::{Addr, Metric, Prefix, RouterId, Seqno};

#[inline]
#[tactic(auto, unfolding(crate::specs::Updates::update, crate::specs::LookBack::update_address, crate::specs::NextHops::named_hop4, crate::specs::NextHops::named_hop6, crate::specs::RouterIds::named_router))]
pub(crate) fn read_update(
    payload: &[u8],
    offset: usize,
    state: &mut ParserState,
    placed: &mut Vec<Placed>,
)
    requires { vec_len placed.old < vec_capacity placed.old }
    ensures placed { placed.new.items ≡ put placed.old.items offset (update state.old payload.now) }
    ensures state { state.new ≡ after state.old layout.update payload.now }
{
    if payload.len() < wire::LEN {
        return push_ignored(placed, offset, Reason::Unreadable);
    }
    match payload[wire::AE] {
        AE_WILDCARD => read_wildcard(payload, offset, placed),
        AE_IPV4 => read_update4(payload, offset, state, placed),
        AE_IPV6 => read_update6(payload, offset, state, placed),
        _ => push_ignored(placed, offset, Reason::UnknownEncoding),
    }
}

/// An Update of all prefixes, which only a retraction can be.
#[inline(never)]
fn read_wildcard(payload: &[u8], offset: usize, placed: &mut Vec<Placed>)
    requires fields { layout.update_len ≤ length payload.now }
    requires room { vec_len placed.old < vec_capacity placed.old }
    ensures { placed.new.items ≡ put placed.old.items offset (after_tail (drop layout.update_len payload.now) (wildcard payload.now)) }
{
    let metric = Metric(word(payload, wire::METRIC));
    if let Some(reason) = tail_reason(&payload[wire::LEN..]) {
        push_ignored(placed, offset, reason);
    } else if metric == Metric::INFINITE
        && payload[wire::PLEN] == 0
        && payload[wire::OMITTED] == 0
    {
        let interval = word(payload, wire::INTERVAL);
        push_message(placed, offset, Message::RetractAll { interval });
    } else {
        push_ignored(placed, offset, Reason::Wildcard);
    }
}

/// An Update of an IPv4 prefix.
#[inline]
#[tactic(auto, unfolding(crate::specs::LookBack::update_address, crate::specs::NextHops::named_hop4, crate::specs::NextHops::named_hop6, crate::specs::RouterIds::named_router))]
fn read_update4(payload: &[u8], offset: usize, state: &mut ParserState, placed: &mut Vec<Placed>)
    requires fields { layout.update_len ≤ length payload.now }
    requires encoding { octet payload.now layout.update_ae ≡ layout.ae_ipv4 }
    requires room { vec_len placed.old < vec_capacity placed.old }
    ensures placed { placed.new.items ≡ put placed.old.items offset (update4 state.old payload.now) }
    ensures state { state.new ≡ after state.old layout.update payload.now }
{
    if !is_readable(IPV4_LEN, payload) {
        return push_ignored(placed, offset, Reason::Unreadable);
    }
    let Some(octets) = address(state.default4, payload) else {
        let reason = tail_reason(tail(payload)).unwrap_or(Reason::NoDefaultPrefix);
        return push_ignored(placed, offset, reason);
    };
    if sets(wire::SETS_PREFIX, payload) {
        state.default4 = Some(octets);
    }
    if sets(wire::SETS_ROUTER_ID, payload) {
        state.router = Some(router4(octets));
    }
    if !is_taken(tail(payload), offset, placed) {
        return;
    }
    let prefix = Prefix::new_unchecked(Addr::V4(octets), payload[wire::PLEN]);
    match state.hop4 {
        Some(hop) => {
            let origin = Origin {
                router: state.router,
                next_hop: Addr::V4(hop),
            };
            push_update(prefix, origin, payload, offset, placed)
        }
        None => push_without_next_hop(prefix, state.router, payload, offset, placed),
    }
}

/// An Update of an IPv6 prefix.
#[inline]
#[tactic(auto, unfolding(crate::specs::LookBack::update_address, crate::specs::NextHops::named_hop4, crate::specs::NextHops::named_hop6, crate::specs::RouterIds::named_router))]
fn read_update6(payload: &[u8], offset: usize, state: &mut ParserState, placed: &mut Vec<Placed>)
    requires fields { layout.update_len ≤ length payload.now }
    requires encoding { octet payload.now layout.update_ae ≡ layout.ae_ipv6 }
    requires room { vec_len placed.old < vec_capacity placed.old }
    ensures placed { placed.new.items ≡ put placed.old.items offset (update6 state.old payload.now) }
    ensures state { state.new ≡ after state.old layout.update payload.now }
{
    if !is_readable(IPV6_LEN, payload) {
        return push_ignored(placed, offset, Reason::Unreadable);
    }
    let Some(octets) = address(state.default6, payload) else {
        let reason = tail_reason(tail(payload)).unwrap_or(Reason::NoDefaultPrefix);
        return push_ignored(placed, offset, reason);
    };
    if sets(wire::SETS_PREFIX, payload) {
        state.default6 = Some(octets);
    }
    if sets(wire::SETS_ROUTER_ID, payload) {
        state.router = Some(router6(octets));
    }
    if !is_taken(tail(payload), offset, placed) {
        return;
    }
    let prefix = Prefix::new_unchecked(Addr::V6(octets), payload[wire::PLEN]);
    match state.hop6 {
        Some(hop) => {
            let origin = Origin {
                router: state.router,
                next_hop: Addr::V6(hop),
            };
            push_update(prefix, origin, payload, offset, placed)
        }
        None => push_without_next_hop(prefix, state.router, payload, offset, placed),
    }
}

/// Whether Plen isn't too large, and the octets of the prefix are there.
#[inline]
fn is_readable(size: usize, payload: &[u8]) -> bool
    requires size { size ≤ layout.ipv6_len }
    requires fields { layout.update_len ≤ length payload.now }
    ensures value { result ≡ fields.is_readable size payload.now }
    ensures short { IsTrue result → octet payload.now layout.update_plen ≤ bits_of size }
    ensures there { IsTrue result → layout.update_len + fields.written payload.now ≤ length payload.now }
{
    is_whole(
        size,
        payload[wire::OMITTED],
        payload[wire::PLEN],
        wire::LEN,
        payload,
    )
}

/// The sub-TLVs, which follow the prefix.
#[inline]
fn tail(payload: &[u8]) -> &[u8]
    requires fields { layout.update_len ≤ length payload.now }
    requires there { layout.update_len + fields.written payload.now ≤ length payload.now }
    ensures { result.now ≡ drop (layout.update_len + fields.written payload.now) payload.now }
{
    let written = octets_of(payload[wire::PLEN]).saturating_sub(payload[wire::OMITTED] as usize);
    &payload[wire::LEN + written..]
}

/// The octets of the prefix's address, `None` if some are omitted and there is no default prefix.
#[inline]
#[tactic(auto, unfolding(crate::specs::UpdateFields::address))]
fn address<const N: usize>(default: Option<[u8; N]>, payload: &[u8]) -> Option<[u8; N]>
    requires fields { layout.update_len ≤ length payload.now }
    requires short { octet payload.now layout.update_plen ≤ bits_of N }
    requires there { layout.update_len + fields.written payload.now ≤ length payload.now }
    ensures value { result ≡ fields.address N default.entry payload.now }
    ensures clear { IfSome result (λ octets. cleared (octet payload.now layout.update_plen) octets ≡ octets) }
{
    let base = if payload[wire::OMITTED] == 0 {
        [0; N]
    } else {
        default?
    };
    Some(prefix_octets(
        base,
        payload[wire::OMITTED],
        payload[wire::PLEN],
        wire::LEN,
        payload,
    ))
}

/// Whether the Update has the flag.
#[inline]
fn sets(flag: u8, payload: &[u8]) -> bool
    requires { layout.update_len ≤ length payload.now }
    ensures { result ≡ numbers.has_flag (octet payload.now layout.update_flags) flag }
{
    has_flag(u16::from(payload[wire::FLAGS]), u16::from(flag))
}

/// The router-id of an IPv4 address: its octets after four zeros.
#[inline]
fn router4(octets: [u8; IPV4_LEN]) -> [u8; ROUTER_ID_LEN]
    ensures { result ≡ router_of_ipv4 octets }
{
    let mut router = [0; ROUTER_ID_LEN];
    router[ROUTER_ID_LEN - IPV4_LEN..].copy_from_slice(octets.as_slice());
    router
}

/// The router-id of an IPv6 address: its last 8 octets.
#[inline]
fn router6(octets: [u8; IPV6_LEN]) -> [u8; ROUTER_ID_LEN]
    ensures { result ≡ router_of_ipv6 octets }
{
    let mut router = [0; ROUTER_ID_LEN];
    router.copy_from_slice(&octets[IPV6_LEN - ROUTER_ID_LEN..]);
    router
}

/// What an Update takes from the parser state: a router-id, if one is set, and a next hop.
#[derive(Clone, Copy)]
struct Origin {
    router: Option<[u8; ROUTER_ID_LEN]>,
    next_hop: Addr,
}

/// The content of an Update of this prefix.
#[inline(always)]
#[tactic(auto, unfolding(crate::specs::Updates::update_of))]
fn push_update(
    prefix: Prefix,
    origin: Origin,
    payload: &[u8],
    offset: usize,
    placed: &mut Vec<Placed>,
)
    requires fields { layout.update_len ≤ length payload.now }
    requires room { vec_len placed.old < vec_capacity placed.old }
    ensures { placed.new.items ≡ put placed.old.items offset (update_of prefix origin.router (Some origin.next_hop) payload.now) }
{
    let interval = word(payload, wire::INTERVAL);
    let metric = Metric(word(payload, wire::METRIC));
    if metric == Metric::INFINITE {
        return push_message(placed, offset, Message::Retraction { prefix, interval });
    }
    // In two steps, since `and_then` makes an option of both that is then read again.
    let Some(octets) = origin.router else {
        return push_ignored(placed, offset, Reason::NoRouterId);
    };
    let Some(router) = RouterId::new(octets) else {
        return push_ignored(placed, offset, Reason::NoRouterId);
    };
    if interval == 0 {
        return push_ignored(placed, offset, Reason::ZeroInterval);
    }
    let seqno = Seqno(word(payload, wire::SEQNO));
    push_message(
        placed,
        offset,
        Message::Update {
            prefix,
            router,
            next_hop: origin.next_hop,
            seqno,
            metric,
            interval,
        },
    );
}

/// The rare case: no next hop of the prefix's family is set, so that only a retraction is taken.
#[inline(never)]
#[tactic(auto, unfolding(crate::specs::Updates::update_of))]
fn push_without_next_hop(
    prefix: Prefix,
    router: Option<[u8; ROUTER_ID_LEN]>,
    payload: &[u8],
    offset: usize,
    placed: &mut Vec<Placed>,
)
    requires fields { layout.update_len ≤ length payload.now }
    requires room { vec_len placed.old < vec_capacity placed.old }
    ensures { placed.new.items ≡ put placed.old.items offset (update_of prefix router None payload.now) }
{
    let interval = word(payload, wire::INTERVAL);
    let metric = Metric(word(payload, wire::METRIC));
    if metric == Metric::INFINITE {
        return push_message(placed, offset, Message::Retraction { prefix, interval });
    }
    let reason = match router.and_then(RouterId::new) {
        Some(_) => Reason::NoNextHop,
        None => Reason::NoRouterId,
    };
    push_ignored(placed, offset, reason)
}
