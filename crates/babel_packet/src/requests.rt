//! Route Request and Seqno Request (RFC 8966, sections 4.6.10 and 4.6.11).

ghost use Rattle.std.specs.Prelude.{◌≡◌, ◌≤◌, ◌<◌, ◌+◌, length, vec_len, vec_capacity};
ghost use Rattle.babel_value.specs.declared.addresses.Addr.TheVariants.{V4, V6};
ghost use Rattle.babel_packet.specs.Numbers.{octet};
ghost use Rattle.babel_message.specs.Layout as layout;
ghost use Rattle.babel_packet.specs.Contents.{put, means, ignored};
ghost use Rattle.babel_packet.specs.Tails.{after_tail};
ghost use Rattle.babel_message.specs.declared.messages.Message.TheVariants as messages;
ghost use Rattle.babel_message.specs.declared.placements.Reason.TheVariants.{Wildcard};
ghost use Rattle.babel_packet.specs.Prefixes.{bits_of, octets_of as octets_taken};
ghost use Rattle.babel_packet.specs.Requests.{asked, route_request, seqno_request, seqno_request_for};

use crate::numbers::word;
use crate::placements::{push_ignored, push_message};
use crate::prefixes::{is_whole, octets_of, prefix_octets};
use crate::tails::tail_reason;
use babel_message::layout::addresses::{
    AE_IPV4, AE_IPV6, AE_WILDCARD, IPV4_LEN, IPV6_LEN, ROUTER_ID_LEN,
};
use babel_message::layout::{route_request as route_fields, seqno_request as seqno_fields};
use babel_message::{Message, Placed, Reason};
use babel_value::{Addr, Prefix, RouterId, Seqno};

#[inline]
#[tactic(auto, unfolding(crate::specs::Requests::route_request))]
pub(crate) fn read_route_request(payload: &[u8], offset: usize, placed: &mut Vec<Placed>)
    requires { vec_len placed.old < vec_capacity placed.old }
    ensures { placed.new.items ≡ put placed.old.items offset (route_request payload.now) }
{
    if payload.len() < route_fields::LEN {
        return push_ignored(placed, offset, Reason::Unreadable);
    }
    let bits = payload[route_fields::PLEN];
    match payload[route_fields::AE] {
        AE_WILDCARD => read_dump_request(payload, offset, placed),
        AE_IPV4 if is_whole(IPV4_LEN, 0, bits, route_fields::LEN, payload) => {
            let prefix = asked4(payload, route_fields::PLEN, route_fields::LEN);
            push_route_request(
                prefix,
                &payload[route_fields::LEN + octets_of(bits)..],
                offset,
                placed,
            )
        }
        AE_IPV6 if is_whole(IPV6_LEN, 0, bits, route_fields::LEN, payload) => {
            let prefix = asked6(payload, route_fields::PLEN, route_fields::LEN);
            push_route_request(
                prefix,
                &payload[route_fields::LEN + octets_of(bits)..],
                offset,
                placed,
            )
        }
        AE_IPV4 | AE_IPV6 => push_ignored(placed, offset, Reason::Unreadable),
        _ => push_ignored(placed, offset, Reason::UnknownEncoding),
    }
}

/// A request for all routes.
#[inline]
#[tactic(auto, unfolding(crate::specs::Requests::route_request))]
fn read_dump_request(payload: &[u8], offset: usize, placed: &mut Vec<Placed>)
    requires fields { layout.route_request_len ≤ length payload.now }
    requires encoding { octet payload.now layout.route_request_ae ≡ layout.ae_wildcard }
    requires room { vec_len placed.old < vec_capacity placed.old }
    ensures { placed.new.items ≡ put placed.old.items offset (route_request payload.now) }
{
    if let Some(reason) = tail_reason(&payload[route_fields::LEN..]) {
        push_ignored(placed, offset, reason);
    } else if payload[route_fields::PLEN] == 0 {
        push_message(placed, offset, Message::DumpRequest);
    } else {
        push_ignored(placed, offset, Reason::Wildcard);
    }
}

#[inline]
fn push_route_request(prefix: Prefix, tail: &[u8], offset: usize, placed: &mut Vec<Placed>)
    requires room { vec_len placed.old < vec_capacity placed.old }
    ensures { placed.new.items ≡ put placed.old.items offset (after_tail tail.now (means (messages.RouteRequest prefix))) }
{
    match tail_reason(tail) {
        Some(reason) => push_ignored(placed, offset, reason),
        None => push_message(placed, offset, Message::RouteRequest { prefix }),
    }
}

#[inline]
#[tactic(auto, unfolding(crate::specs::Requests::seqno_request))]
pub(crate) fn read_seqno_request(payload: &[u8], offset: usize, placed: &mut Vec<Placed>)
    requires { vec_len placed.old < vec_capacity placed.old }
    ensures { placed.new.items ≡ put placed.old.items offset (seqno_request payload.now) }
{
    if payload.len() < seqno_fields::LEN {
        return push_ignored(placed, offset, Reason::Unreadable);
    }
    let bits = payload[seqno_fields::PLEN];
    match payload[seqno_fields::AE] {
        AE_WILDCARD => push_wildcard(&payload[seqno_fields::LEN..], offset, placed),
        AE_IPV4 if is_whole(IPV4_LEN, 0, bits, seqno_fields::LEN, payload) => {
            let prefix = asked4(payload, seqno_fields::PLEN, seqno_fields::LEN);
            push_seqno_request(
                prefix,
                &payload[seqno_fields::LEN + octets_of(bits)..],
                payload,
                offset,
                placed,
            )
        }
        AE_IPV6 if is_whole(IPV6_LEN, 0, bits, seqno_fields::LEN, payload) => {
            let prefix = asked6(payload, seqno_fields::PLEN, seqno_fields::LEN);
            push_seqno_request(
                prefix,
                &payload[seqno_fields::LEN + octets_of(bits)..],
                payload,
                offset,
                placed,
            )
        }
        AE_IPV4 | AE_IPV6 => push_ignored(placed, offset, Reason::Unreadable),
        _ => push_ignored(placed, offset, Reason::UnknownEncoding),
    }
}

/// There is no seqno request for all prefixes.
#[inline]
fn push_wildcard(tail: &[u8], offset: usize, placed: &mut Vec<Placed>)
    requires { vec_len placed.old < vec_capacity placed.old }
    ensures { placed.new.items ≡ put placed.old.items offset (after_tail tail.now (ignored Wildcard)) }
{
    let reason = tail_reason(tail).unwrap_or(Reason::Wildcard);
    push_ignored(placed, offset, reason);
}

#[inline(always)]
#[tactic(auto, unfolding(crate::specs::Requests::seqno_request_for))]
fn push_seqno_request(
    prefix: Prefix,
    tail: &[u8],
    payload: &[u8],
    offset: usize,
    placed: &mut Vec<Placed>,
)
    requires fields { layout.seqno_request_len ≤ length payload.now }
    requires room { vec_len placed.old < vec_capacity placed.old }
    ensures { placed.new.items ≡ put placed.old.items offset (after_tail tail.now (seqno_request_for prefix payload.now)) }
{
    let mut octets = [0; ROUTER_ID_LEN];
    octets.copy_from_slice(&payload[seqno_fields::ROUTER_ID..seqno_fields::LEN]);
    let seqno = Seqno(word(payload, seqno_fields::SEQNO));
    let hops = payload[seqno_fields::HOPS];
    if let Some(reason) = tail_reason(tail) {
        return push_ignored(placed, offset, reason);
    }
    let Some(router) = RouterId::new(octets) else {
        return push_ignored(placed, offset, Reason::NoRouterId);
    };
    if hops == 0 {
        return push_ignored(placed, offset, Reason::NoHops);
    }
    push_message(
        placed,
        offset,
        Message::SeqnoRequest {
            prefix,
            router,
            seqno,
            hops,
        },
    );
}

/// The IPv4 prefix at this offset, of the length in the octet at `plen`.
#[inline]
fn asked4(payload: &[u8], plen: usize, at: usize) -> Prefix
    requires fields { plen < length payload.now }
    requires at { at ≤ layout.seqno_request_len }
    requires short { octet payload.now plen ≤ bits_of layout.ipv4_len }
    requires there { at + octets_taken (octet payload.now plen) ≤ length payload.now }
    ensures { result ≡ asked layout.ipv4_len V4 plen at payload.now }
{
    let octets = prefix_octets([0; IPV4_LEN], 0, payload[plen], at, payload);
    Prefix::new_unchecked(Addr::V4(octets), payload[plen])
}

/// The IPv6 prefix at this offset, of the length in the octet at `plen`.
#[inline]
fn asked6(payload: &[u8], plen: usize, at: usize) -> Prefix
    requires fields { plen < length payload.now }
    requires at { at ≤ layout.seqno_request_len }
    requires short { octet payload.now plen ≤ bits_of layout.ipv6_len }
    requires there { at + octets_taken (octet payload.now plen) ≤ length payload.now }
    ensures { result ≡ asked layout.ipv6_len V6 plen at payload.now }
{
    let octets = prefix_octets([0; IPV6_LEN], 0, payload[plen], at, payload);
    Prefix::new_unchecked(Addr::V6(octets), payload[plen])
}
