//! Each TLV, appended to a datagram if it fits (RFC 8966, section 4.6).

ghost use Rattle.std.specs.Prelude.{◌≡◌, ◌<◌, ◌≤◌, ◌+◌, [], ◌∷◌, ◌++◌, length};
ghost use Rattle.std.specs.Bool.{OnTrue, OnFalse};
ghost use Rattle.babel_tlv.specs.Spelling.{spelled};
ghost use Rattle.babel_value.specs.Hellos.{is_unicast};
ghost use Rattle.babel_value.specs.Metrics.{infinity};
ghost use Rattle.babel_message.specs.Layout as layout;
ghost use Rattle.babel_message.specs.declared.messages.Message.TheVariants as messages;
ghost use Rattle.babel_packet.specs.Payloads.{router_id_payload, next_hop_payload, two, prefix_encoding, prefix_written};
ghost use Rattle.babel_packet.specs.Compressed.{update_fields as fields_of_update, update_payload};
ghost use Rattle.babel_build.specs.Built.{is_room, one_tlv};

use crate::fields::{encoded, octets_of, prefix_encoding, reached};
use crate::states::omitted;
use arrayvec::ArrayVec;
use babel_message::layout::hello::UNICAST;
use babel_message::layout::{seqno_request, update};
use babel_message::{
    ACK, ACK_REQUEST, AE_IPV4, AE_WILDCARD, HELLO, IHU, NEXT_HOP, ROUTE_REQUEST, ROUTER_ID,
    SEQNO_REQUEST, UPDATE,
};
use babel_packet::ParserState;
use babel_tlv::{DATAGRAM_LEN, MAX_PAYLOAD_LEN, TLV_HEADER_LEN};
use babel_value::{Addr, HelloKind, Metric, Prefix, RouterId, Seqno};

/// The datagram that is being built.
pub(crate) type Datagram = ArrayVec<u8, DATAGRAM_LEN>;

/// The octets of an Update before its prefix: type, length and fields.
const UPDATE_START_LEN: usize = TLV_HEADER_LEN + update::LEN;

/// Appends a TLV whose payload is the fields and then these octets.
#[inline(always)]
fn put_tlv(datagram: &mut Datagram, kind: u8, fields: &[u8], octets: &[u8]) -> bool
    requires kind { 0 < kind }
    requires short { length fields.now + length octets.now ≤ MAX_PAYLOAD_LEN }
    ensures fits { result ≡ is_room datagram.old.items (spelled kind (fields.now ++ octets.now)) }
    ensures appended { OnTrue result (datagram.new.items ≡ datagram.old.items ++ spelled kind (fields.now ++ octets.now)) }
    ensures unchanged { OnFalse result (datagram.new ≡ datagram.old) }
{
    let length = fields.len() + octets.len();
    if datagram.remaining_capacity() < TLV_HEADER_LEN + length {
        return false;
    }
    datagram.push(kind);
    datagram.push(length as u8);
    // There is room for all of them.
    datagram.try_extend_from_slice(fields).unwrap();
    append(datagram, octets);
    true
}

/// Appends octets, for which there is room. An Update mostly has few. Their number is known to the
/// compiler in its arm, so that it makes a move of them and no call.
#[inline(always)]
fn append(datagram: &mut Datagram, octets: &[u8])
    requires { length datagram.old.items + length octets.now ≤ DATAGRAM_LEN }
    ensures { datagram.new.items ≡ datagram.old.items ++ octets.now }
{
    match octets.len() {
        0 => {}
        1 => datagram.try_extend_from_slice(octets).unwrap(),
        2 => datagram.try_extend_from_slice(octets).unwrap(),
        3 => datagram.try_extend_from_slice(octets).unwrap(),
        4 => datagram.try_extend_from_slice(octets).unwrap(),
        _ => datagram.try_extend_from_slice(octets).unwrap(),
    }
}

/// Appends a TLV whose payload is the fields and then the octets of the prefix.
fn put_prefixed(datagram: &mut Datagram, kind: u8, fields: &[u8], prefix: &Prefix) -> bool
    requires kind { 0 < kind }
    requires short { length fields.now + layout.ipv6_len ≤ MAX_PAYLOAD_LEN }
    ensures fits { result ≡ is_room datagram.old.items (spelled kind (fields.now ++ prefix_written prefix.now)) }
    ensures appended { OnTrue result (datagram.new.items ≡ datagram.old.items ++ spelled kind (fields.now ++ prefix_written prefix.now)) }
    ensures unchanged { OnFalse result (datagram.new ≡ datagram.old) }
{
    let addr = prefix.addr();
    put_tlv(datagram, kind, fields, reached(&addr, prefix.length()))
}

/// Acknowledgment Request (RFC 8966, section 4.6.3).
pub(crate) fn put_ack_request(datagram: &mut Datagram, opaque: u16, interval: u16) -> bool
    ensures fits { result ≡ is_room datagram.old.items (one_tlv (messages.AckRequest opaque interval)) }
    ensures appended { OnTrue result (datagram.new.items ≡ datagram.old.items ++ one_tlv (messages.AckRequest opaque interval)) }
    ensures unchanged { OnFalse result (datagram.new ≡ datagram.old) }
{
    let [o0, o1] = octets_of(opaque);
    let [i0, i1] = octets_of(interval);
    put_tlv(datagram, ACK_REQUEST, &[0, 0, o0, o1, i0, i1], &[])
}

/// Acknowledgment (RFC 8966, section 4.6.4).
pub(crate) fn put_ack(datagram: &mut Datagram, opaque: u16) -> bool
    ensures fits { result ≡ is_room datagram.old.items (one_tlv (messages.Ack opaque)) }
    ensures appended { OnTrue result (datagram.new.items ≡ datagram.old.items ++ one_tlv (messages.Ack opaque)) }
    ensures unchanged { OnFalse result (datagram.new ≡ datagram.old) }
{
    put_tlv(datagram, ACK, &octets_of(opaque), &[])
}

/// Hello (RFC 8966, section 4.6.5).
pub(crate) fn put_hello(
    datagram: &mut Datagram,
    kind: HelloKind,
    seqno: Seqno,
    interval: u16,
) -> bool
    ensures fits { result ≡ is_room datagram.old.items (one_tlv (messages.Hello (is_unicast kind) seqno interval)) }
    ensures appended { OnTrue result (datagram.new.items ≡ datagram.old.items ++ one_tlv (messages.Hello (is_unicast kind) seqno interval)) }
    ensures unchanged { OnFalse result (datagram.new ≡ datagram.old) }
{
    let [s0, s1] = octets_of(seqno.0);
    let [i0, i1] = octets_of(interval);
    match kind {
        HelloKind::Unicast => {
            let [f0, f1] = octets_of(UNICAST);
            put_tlv(datagram, HELLO, &[f0, f1, s0, s1, i0, i1], &[])
        }
        HelloKind::Multicast => put_tlv(datagram, HELLO, &[0, 0, s0, s1, i0, i1], &[]),
    }
}

/// I Heard You (RFC 8966, section 4.6.6).
pub(crate) fn put_ihu(
    datagram: &mut Datagram,
    to: Option<Addr>,
    rxcost: Metric,
    interval: u16,
) -> bool
    ensures fits { result ≡ is_room datagram.old.items (one_tlv (messages.Ihu to rxcost interval)) }
    ensures appended { OnTrue result (datagram.new.items ≡ datagram.old.items ++ one_tlv (messages.Ihu to rxcost interval)) }
    ensures unchanged { OnFalse result (datagram.new ≡ datagram.old) }
{
    let (encoding, octets) = match &to {
        Some(addr) => encoded(addr),
        None => (AE_WILDCARD, [].as_slice()),
    };
    let [r0, r1] = octets_of(rxcost.0);
    let [i0, i1] = octets_of(interval);
    put_tlv(datagram, IHU, &[encoding, 0, r0, r1, i0, i1], octets)
}

/// Router-Id (RFC 8966, section 4.6.7).
pub(crate) fn put_router_id(datagram: &mut Datagram, router: RouterId) -> bool
    ensures fits { result ≡ is_room datagram.old.items (spelled layout.router_id (router_id_payload router)) }
    ensures appended { OnTrue result (datagram.new.items ≡ datagram.old.items ++ spelled layout.router_id (router_id_payload router)) }
    ensures unchanged { OnFalse result (datagram.new ≡ datagram.old) }
{
    put_tlv(datagram, ROUTER_ID, &[0, 0], &router.octets())
}

/// Next Hop (RFC 8966, section 4.6.8).
pub(crate) fn put_next_hop(datagram: &mut Datagram, next_hop: Addr) -> bool
    ensures fits { result ≡ is_room datagram.old.items (spelled layout.next_hop (next_hop_payload next_hop)) }
    ensures appended { OnTrue result (datagram.new.items ≡ datagram.old.items ++ spelled layout.next_hop (next_hop_payload next_hop)) }
    ensures unchanged { OnFalse result (datagram.new ≡ datagram.old) }
{
    match next_hop {
        Addr::V4(octets) => {
            let [a, b, c, d] = octets;
            put_tlv(datagram, NEXT_HOP, &[AE_IPV4, 0, a, b, c, d], &[])
        }
        Addr::V6(octets) => {
            let addr = Addr::V6(octets);
            let (encoding, octets) = encoded(&addr);
            put_tlv(datagram, NEXT_HOP, &[encoding, 0], octets)
        }
    }
}

/// What an Update advertises of a prefix.
#[derive(Clone, Copy)]
pub(crate) struct Advertised {
    /// In centiseconds.
    pub(crate) interval: u16,
    pub(crate) seqno: Seqno,
    pub(crate) metric: Metric,
}

impl Advertised {
    /// A retraction: its seqno isn't read (RFC 8966, section 4.6.9).
    #[inline]
    pub(crate) fn retracted(interval: u16) -> Advertised
        ensures { result ≡ record { interval = interval; seqno = 0; metric = infinity } }
    {
        Advertised {
            interval,
            seqno: Seqno(0),
            metric: Metric::INFINITE,
        }
    }
}

/// The fields of an Update before its prefix.
#[inline]
fn update_fields(
    encoding: u8,
    flags: u8,
    bits: u8,
    omitted: u8,
    advertised: Advertised,
) -> [u8; update::LEN]
    ensures { result ≡ fields_of_update encoding flags bits omitted advertised.interval advertised.seqno advertised.metric [] }
{
    let [i0, i1] = octets_of(advertised.interval);
    let [s0, s1] = octets_of(advertised.seqno.0);
    let [m0, m1] = octets_of(advertised.metric.0);
    [encoding, flags, bits, omitted, i0, i1, s0, s1, m0, m1]
}

/// The octets of an Update before its prefix, if its payload has this length.
#[inline]
fn update_start(length: u8, fields: [u8; update::LEN]) -> [u8; UPDATE_START_LEN]
    ensures { result ≡ layout.update ∷ length ∷ fields }
{
    let [f0, f1, f2, f3, f4, f5, f6, f7, f8, f9] = fields;
    [UPDATE, length, f0, f1, f2, f3, f4, f5, f6, f7, f8, f9]
}

/// Appends the start of an Update, in one move, and these octets, if they fit.
#[inline(always)]
fn put_start(datagram: &mut Datagram, start: &[u8; UPDATE_START_LEN], octets: &[u8]) -> bool
    requires { length octets.now ≤ MAX_PAYLOAD_LEN }
    ensures fits { result ≡ is_room datagram.old.items (start.now ++ octets.now) }
    ensures appended { OnTrue result (datagram.new.items ≡ datagram.old.items ++ (start.now ++ octets.now)) }
    ensures unchanged { OnFalse result (datagram.new ≡ datagram.old) }
{
    if datagram.remaining_capacity() < UPDATE_START_LEN + octets.len() {
        return false;
    }
    // There is room for all of them.
    datagram.try_extend_from_slice(start).unwrap();
    append(datagram, octets);
    true
}

/// Update (RFC 8966, section 4.6.9), without the octets of its prefix that the default prefix has.
#[inline(always)]
pub(crate) fn put_update(
    datagram: &mut Datagram,
    state: &ParserState,
    flags: u8,
    prefix: &Prefix,
    advertised: Advertised,
) -> bool
    ensures fits { result ≡ is_room datagram.old.items
        (spelled layout.update (update_payload state.now flags prefix.now advertised.interval advertised.seqno advertised.metric)) }
    ensures appended { OnTrue result (datagram.new.items ≡ datagram.old.items
        ++ spelled layout.update (update_payload state.now flags prefix.now advertised.interval advertised.seqno advertised.metric)) }
    ensures unchanged { OnFalse result (datagram.new ≡ datagram.old) }
{
    let addr = prefix.addr();
    let bits = prefix.length();
    let octets = reached(&addr, bits);
    let omitted = omitted(state, &addr, octets.len());
    let written = &octets[omitted..];
    let length = update::LEN + written.len();
    let encoding = prefix_encoding(prefix);
    let fields = update_fields(encoding, flags, bits, omitted as u8, advertised);
    put_start(datagram, &update_start(length as u8, fields), written)
}

/// The Update that retracts all prefixes (RFC 8966, section 4.6.9).
pub(crate) fn put_retract_all(datagram: &mut Datagram, interval: u16) -> bool
    ensures fits { result ≡ is_room datagram.old.items (one_tlv (messages.RetractAll interval)) }
    ensures appended { OnTrue result (datagram.new.items ≡ datagram.old.items ++ one_tlv (messages.RetractAll interval)) }
    ensures unchanged { OnFalse result (datagram.new ≡ datagram.old) }
{
    let retraction = Advertised {
        interval,
        seqno: Seqno(0),
        metric: Metric::INFINITE,
    };
    let fields = update_fields(AE_WILDCARD, 0, 0, 0, retraction);
    put_tlv(datagram, UPDATE, &fields, &[])
}

/// Route Request (RFC 8966, section 4.6.10).
pub(crate) fn put_route_request(datagram: &mut Datagram, prefix: Prefix) -> bool
    ensures fits { result ≡ is_room datagram.old.items (one_tlv (messages.RouteRequest prefix)) }
    ensures appended { OnTrue result (datagram.new.items ≡ datagram.old.items ++ one_tlv (messages.RouteRequest prefix)) }
    ensures unchanged { OnFalse result (datagram.new ≡ datagram.old) }
{
    let fields = [prefix_encoding(&prefix), prefix.length()];
    put_prefixed(datagram, ROUTE_REQUEST, &fields, &prefix)
}

/// The Route Request for all routes (RFC 8966, section 4.6.10).
pub(crate) fn put_dump_request(datagram: &mut Datagram) -> bool
    ensures fits { result ≡ is_room datagram.old.items (one_tlv messages.DumpRequest) }
    ensures appended { OnTrue result (datagram.new.items ≡ datagram.old.items ++ one_tlv messages.DumpRequest) }
    ensures unchanged { OnFalse result (datagram.new ≡ datagram.old) }
{
    put_tlv(datagram, ROUTE_REQUEST, &[AE_WILDCARD, 0], &[])
}

/// The fields of a Seqno Request before its prefix.
fn seqno_request_fields(
    prefix: &Prefix,
    router: RouterId,
    seqno: Seqno,
    hops: u8,
) -> [u8; seqno_request::LEN]
    ensures { result ≡ prefix_encoding prefix.now.addr ∷ prefix.now.length ∷ (two seqno ++ (hops ∷ 0 ∷ router)) }
{
    let (encoding, bits) = (prefix_encoding(prefix), prefix.length());
    let [s0, s1] = octets_of(seqno.0);
    let mut fields = [encoding, bits, s0, s1, hops, 0, 0, 0, 0, 0, 0, 0, 0, 0];
    fields[seqno_request::ROUTER_ID..].copy_from_slice(&router.octets());
    fields
}

/// Seqno Request (RFC 8966, section 4.6.11).
pub(crate) fn put_seqno_request(
    datagram: &mut Datagram,
    prefix: Prefix,
    router: RouterId,
    seqno: Seqno,
    hops: u8,
) -> bool
    ensures fits { result ≡ is_room datagram.old.items (one_tlv (messages.SeqnoRequest prefix router seqno hops)) }
    ensures appended { OnTrue result (datagram.new.items ≡ datagram.old.items ++ one_tlv (messages.SeqnoRequest prefix router seqno hops)) }
    ensures unchanged { OnFalse result (datagram.new ≡ datagram.old) }
{
    let fields = seqno_request_fields(&prefix, router, seqno, hops);
    put_prefixed(datagram, SEQNO_REQUEST, &fields, &prefix)
}
