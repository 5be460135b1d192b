//! What a reader has from earlier TLVs (RFC 8966, section 4.5), and what a TLV can leave out for
//! it.

ghost use Rattle.std.specs.Prelude.{◌≡◌, ◌≤◌, length, take};
ghost use Rattle.std.specs.Option.{option_map};
ghost use Rattle.std.specs.Str.{bytes_eq};
ghost use Rattle.babel_packet.specs.Payloads.{octets};
ghost use Rattle.babel_packet.specs.BodyMeanings.{hop_for};
ghost use Rattle.babel_packet.specs.Compressed as compressed;
ghost use Rattle.babel_packet.specs.Compressed.{default_for, with_default, with_router, with_hop};

use crate::equal::{are_equal4, are_equal8, are_equal16};
use babel_message::layout::addresses::{IPV4_LEN, IPV6_LEN, ROUTER_ID_LEN};
use babel_packet::ParserState;
use babel_value::{Addr, RouterId};

/// Whether the router-id is set already.
#[inline]
pub(crate) fn router_is_set(state: &ParserState, router: RouterId) -> bool
    ensures { result ≡ compressed.is_set state.now.router router }
{
    match &state.router {
        Some(before) => are_equal8(before, &router.octets()),
        None => false,
    }
}

/// Whether the next hop of its family is this address already.
#[inline]
pub(crate) fn next_hop_is_set(state: &ParserState, next_hop: &Addr) -> bool
    ensures { result ≡ compressed.is_set (hop_for next_hop.now state.now) (octets next_hop.now) }
{
    match next_hop {
        Addr::V4(octets) => match &state.hop4 {
            Some(before) => are_equal4(before, octets),
            None => false,
        },
        Addr::V6(octets) => match &state.hop6 {
            Some(before) => are_equal16(before, octets),
            None => false,
        },
    }
}

/// Whether the address of a prefix gives this router-id (RFC 8966, section 4.6.9).
#[inline]
pub(crate) fn gives_router(addr: &Addr, router: RouterId) -> bool
    ensures { result ≡ bytes_eq (compressed.given_router addr.now) router }
{
    are_equal8(&given_router(addr), &router.octets())
}

/// The last 8 octets of an IPv6 address, or four zeros and an IPv4 address.
#[inline]
fn given_router(addr: &Addr) -> [u8; ROUTER_ID_LEN]
    ensures { result ≡ compressed.given_router addr.now }
{
    let mut router = [0; ROUTER_ID_LEN];
    match addr {
        Addr::V4(octets) => router[ROUTER_ID_LEN - IPV4_LEN..].copy_from_slice(octets),
        Addr::V6(octets) => router.copy_from_slice(&octets[IPV6_LEN - ROUTER_ID_LEN..]),
    }
    router
}

/// How many of the first `taken` octets of an address the default prefix of its encoding has too,
/// from the first on. Whole addresses are compared: their length is known where this is compiled,
/// so that the loop is unrolled.
#[inline]
#[tactic(auto, using(crate::proofs::Shared::omitted_in_front))]
pub(crate) fn omitted(state: &ParserState, addr: &Addr, taken: usize) -> usize
    ensures value { result ≡ compressed.omitted (default_for addr.now state.now) (take taken (octets addr.now)) }
    ensures short { result ≤ taken }
{
    let shared = match addr {
        Addr::V4(octets) => shared(
            octets,
            state.default4.as_ref().map(|default| default.as_slice()),
        ),
        Addr::V6(octets) => shared(
            octets,
            state.default6.as_ref().map(|default| default.as_slice()),
        ),
    };
    shared.min(taken)
}

/// How many leading octets an address and a default prefix have in common.
#[inline(always)]
fn shared(octets: &[u8], default: Option<&[u8]>) -> usize
    ensures { result ≡ compressed.omitted (option_map (λ default. default.now) default.entry) octets.now }
{
    match default {
        Some(default) => common(octets, default),
        None => 0,
    }
}

/// How many leading octets both have in common.
#[inline(always)]
fn common(one: &[u8], other: &[u8]) -> usize
    ensures value { result ≡ compressed.common one.now other.now }
    ensures short { result ≤ length one.now }
{
    let shorter = one.len().min(other.len());
    for index in 0..shorter {
        if one[index] != other[index] {
            return index;
        }
    }
    shorter
}

/// Sets the router-id and the next hop of its family.
#[inline]
pub(crate) fn set_origin(state: &mut ParserState, router: RouterId, next_hop: &Addr)
    ensures { state.new ≡ with_hop next_hop.now (with_router router state.old) }
{
    state.router = Some(router.octets());
    match next_hop {
        Addr::V4(octets) => state.hop4 = Some(*octets),
        Addr::V6(octets) => state.hop6 = Some(*octets),
    }
}

/// Sets the default prefix of the encoding of this address.
#[inline]
pub(crate) fn set_default(state: &mut ParserState, addr: Addr)
    ensures { state.new ≡ with_default addr state.old }
{
    match addr {
        Addr::V4(octets) => state.default4 = Some(octets),
        Addr::V6(octets) => state.default6 = Some(octets),
    }
}
