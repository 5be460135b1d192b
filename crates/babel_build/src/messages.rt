//! The TLVs of a message in few octets (RFC 8966, sections 4.5 and 4.6): an Update leaves out its
//! router-id, its next hop and the first octets of its prefix if a reader has them from earlier
//! TLVs.

ghost use Rattle.std.specs.Prelude.{◌≡◌, ◌++◌, length, take, is_some, IfSome, IfNone, OnSome};
ghost use Rattle.std.specs.Bool.{OnTrue, OnFalse};
ghost use Rattle.babel_tlv.specs.Spelling.{spelled};
ghost use Rattle.babel_message.specs.Layout as layout;
ghost use Rattle.babel_message.specs.declared.messages.Message.TheVariants as messages;
ghost use Rattle.babel_packet.specs.Compressed as compressed;
ghost use Rattle.babel_packet.specs.Compressed.{router_id_before, next_hop_before, state_with, update_payload, with_default};
ghost use Rattle.babel_build.specs.Built.{is_room};

use crate::states::{gives_router, next_hop_is_set, router_is_set, set_default, set_origin};
use crate::tlvs::{
    Advertised, Datagram, put_ack, put_ack_request, put_dump_request, put_hello, put_ihu,
    put_next_hop, put_retract_all, put_route_request, put_router_id, put_seqno_request, put_update,
};
use babel_message::Message;
use babel_message::layout::update::{SETS_PREFIX, SETS_ROUTER_ID};
use babel_packet::ParserState;
use babel_value::{Addr, HelloKind, Prefix, RouterId};

/// Appends the TLVs of a message, if they fit. Otherwise some of them may have been appended.
pub(crate) fn put_message(
    datagram: &mut Datagram,
    state: &mut ParserState,
    message: &Message,
) -> bool
    ensures fits { result ≡ is_room datagram.old.items (compressed.compressed state.old message.now) }
    ensures appended { OnTrue result (datagram.new.items ≡ datagram.old.items ++ compressed.compressed state.old message.now) }
    ensures state { OnTrue result (state.new ≡ state_with state.old message.now) }
    ensures kept { OnFalse result (take (length datagram.old.items) datagram.new.items ≡ datagram.old.items) }
    ensures unchanged { OnFalse result (state.new ≡ state.old) }
{
    match *message {
        Message::AckRequest { opaque, interval } => put_ack_request(datagram, opaque, interval),
        Message::Ack { opaque } => put_ack(datagram, opaque),
        Message::Hello {
            unicast,
            seqno,
            interval,
        } => put_hello(datagram, HelloKind::of(unicast), seqno, interval),
        Message::Ihu {
            to,
            rxcost,
            interval,
        } => put_ihu(datagram, to, rxcost, interval),
        Message::Update {
            ref prefix,
            router,
            ref next_hop,
            seqno,
            metric,
            interval,
        } => {
            let advertised = Advertised {
                interval,
                seqno,
                metric,
            };
            put_finite(
                datagram,
                state,
                prefix,
                Origin { router, next_hop },
                advertised,
            )
        }
        Message::Retraction {
            ref prefix,
            interval,
        } => put_retraction(datagram, state, prefix, interval),
        Message::RetractAll { interval } => put_retract_all(datagram, interval),
        Message::RouteRequest { prefix } => put_route_request(datagram, prefix),
        Message::DumpRequest => put_dump_request(datagram),
        Message::SeqnoRequest {
            prefix,
            router,
            seqno,
            hops,
        } => put_seqno_request(datagram, prefix, router, seqno, hops),
    }
}

/// What the parser state may give an Update: the router-id and the next hop.
#[derive(Clone, Copy)]
struct Origin<'a> {
    router: RouterId,
    next_hop: &'a Addr,
}

/// Appends an Update, after a Router-Id and a Next Hop if the reader needs them. Mostly it has
/// both.
#[inline(always)]
#[tactic(auto, using(crate::proofs::Shared::origin_is_kept))]
fn put_finite(
    datagram: &mut Datagram,
    state: &mut ParserState,
    prefix: &Prefix,
    origin: Origin<'_>,
    advertised: Advertised,
) -> bool
    ensures fits { result ≡ is_room datagram.old.items (compressed.compressed state.old (messages.Update prefix.now origin.entry.router origin.entry.next_hop.now advertised.seqno advertised.metric advertised.interval)) }
    ensures appended { OnTrue result (datagram.new.items
        ≡ datagram.old.items ++ compressed.compressed state.old (messages.Update prefix.now origin.entry.router origin.entry.next_hop.now advertised.seqno advertised.metric advertised.interval)) }
    ensures state { OnTrue result (state.new
        ≡ state_with state.old (messages.Update prefix.now origin.entry.router origin.entry.next_hop.now advertised.seqno advertised.metric advertised.interval)) }
    ensures kept { OnFalse result (take (length datagram.old.items) datagram.new.items ≡ datagram.old.items) }
    ensures unchanged { OnFalse result (state.new ≡ state.old) }
{
    let Origin { router, next_hop } = origin;
    let has_both = router_is_set(state, router) && next_hop_is_set(state, next_hop);
    if has_both {
        // Only the default prefix changes.
        return put_and_set_default(datagram, state, SETS_PREFIX, prefix, advertised);
    }
    let Some(flags) = put_needed_router_id(datagram, state, prefix, router) else {
        return false;
    };
    let fits = put_needed_next_hop(datagram, state, next_hop)
        && put_and_set_default(datagram, state, flags, prefix, advertised);
    if fits {
        set_origin(state, router, next_hop);
    }
    fits
}

/// Appends an Update, which sets the default prefix of its encoding.
#[inline(always)]
fn put_and_set_default(
    datagram: &mut Datagram,
    state: &mut ParserState,
    flags: u8,
    prefix: &Prefix,
    advertised: Advertised,
) -> bool
    ensures fits { result ≡ is_room datagram.old.items
        (spelled layout.update (update_payload state.old flags prefix.now advertised.interval advertised.seqno advertised.metric)) }
    ensures appended { OnTrue result (datagram.new.items ≡ datagram.old.items
        ++ spelled layout.update (update_payload state.old flags prefix.now advertised.interval advertised.seqno advertised.metric)) }
    ensures state { OnTrue result (state.new ≡ with_default prefix.now.addr state.old) }
    ensures unchanged { OnFalse result ((datagram.new ≡ datagram.old) × (state.new ≡ state.old)) }
{
    let fits = put_update(datagram, state, flags, prefix, advertised);
    if fits {
        set_default(state, prefix.addr());
    }
    fits
}

/// Appends a Router-Id, if the router-id differs and the address of the prefix doesn't give it.
/// Returns the flags of the Update, which sets the default prefix, and the router-id if that
/// differs and the address gives it. `None`: there is no room.
#[inline]
fn put_needed_router_id(
    datagram: &mut Datagram,
    state: &ParserState,
    prefix: &Prefix,
    router: RouterId,
) -> Option<u8>
    ensures fits { is_some result ≡ is_room datagram.old.items (router_id_before state.now prefix.now router) }
    ensures flags { IfSome result (λ flags. flags ≡ compressed.flags_of state.now prefix.now router) }
    ensures appended { OnSome result (datagram.new.items ≡ datagram.old.items ++ router_id_before state.now prefix.now router) }
    ensures unchanged { IfNone result (datagram.new ≡ datagram.old) }
{
    let _room = datagram.remaining_capacity();
    if router_is_set(state, router) {
        return Some(SETS_PREFIX);
    }
    if gives_router(&prefix.addr(), router) {
        return Some(SETS_PREFIX | SETS_ROUTER_ID);
    }
    put_router_id(datagram, router).then_some(SETS_PREFIX)
}

/// Appends a Next Hop, if the next hop of its family differs.
#[inline]
fn put_needed_next_hop(datagram: &mut Datagram, state: &ParserState, next_hop: &Addr) -> bool
    ensures fits { result ≡ is_room datagram.old.items (next_hop_before state.now next_hop.now) }
    ensures appended { OnTrue result (datagram.new.items ≡ datagram.old.items ++ next_hop_before state.now next_hop.now) }
    ensures unchanged { OnFalse result (datagram.new ≡ datagram.old) }
{
    let _room = datagram.remaining_capacity();
    if next_hop_is_set(state, next_hop) {
        return true;
    }
    put_next_hop(datagram, *next_hop)
}

/// Appends the Update that retracts a prefix.
#[inline]
fn put_retraction(
    datagram: &mut Datagram,
    state: &mut ParserState,
    prefix: &Prefix,
    interval: u16,
) -> bool
    ensures fits { result ≡ is_room datagram.old.items (compressed.compressed state.old (messages.Retraction prefix.now interval)) }
    ensures appended { OnTrue result (datagram.new.items
        ≡ datagram.old.items ++ compressed.compressed state.old (messages.Retraction prefix.now interval)) }
    ensures state { OnTrue result (state.new ≡ state_with state.old (messages.Retraction prefix.now interval)) }
    ensures unchanged { OnFalse result ((datagram.new ≡ datagram.old) × (state.new ≡ state.old)) }
{
    let advertised = Advertised::retracted(interval);
    put_and_set_default(datagram, state, SETS_PREFIX, prefix, advertised)
}
