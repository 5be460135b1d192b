//! The walk over a datagram (RFC 8966, section 4.2).
//!
//! `decode` is linear in the octets. It makes one list, sized by a twelfth of the body at first,
//! and reads each octet a bounded number of times. Payloads are slices of the input. The readers
//! are inlined into one function, but for that of a Next Hop: a value that goes through memory
//! comes back wider than it was written, which stalls the processor (docs/PERFORMANCE.md).

ghost use Rattle.std.specs.Prelude.{◌≡◌, ◌<◌, ◌+◌, ◌^◌, length, IfOk, IfErr, OnOk, OnErr, MatchOption, IsTrue, [], vec_len, vec_capacity};
ghost use Rattle.babel_tlv.specs.Split.{places_of, fault_of};
ghost use Rattle.babel_message.specs.Layout.{datagram_header_len};
ghost use Rattle.babel_packet.specs.Contents.{put};
ghost use Rattle.babel_packet.specs.Meaning.{meaning, content, body_of, body_meaning, Refuses, header_refusal};
ghost use Rattle.babel_packet.specs.Running.{after};

use crate::acks::{read_ack, read_ack_request};
use crate::hellos::read_hello;
use crate::ihus::read_ihu;
use crate::next_hops::read_next_hop;
use crate::numbers::word;
use crate::parser_state::ParserState;
use crate::placements::push_ignored;
use crate::requests::{read_route_request, read_seqno_request};
use crate::router_ids::read_router_id;
use crate::updates::read_update;
use babel_message::layout::header;
use babel_message::layout::kinds::{
    ACK, ACK_REQUEST, HELLO, IHU, NEXT_HOP, PAD_N, ROUTE_REQUEST, ROUTER_ID, SEQNO_REQUEST, UPDATE,
};
use babel_message::{Placed, Reason, Refusal};
use babel_tlv::{PAD1, Tlv, split, walk};
use babel_value::Addr;
use std::alloc::Global;

/// About as many octets as a TLV takes, from which the capacity of the list is estimated.
const USUAL_TLV_LEN: usize = 12;

/// The meaning of a datagram from this source address, TLV by TLV (RFC 8966, section 4.5).
///
/// Decoding is one pass over the octets and makes one list.
#[tactic(auto, unfolding(crate::specs::Meaning::meaning))]
pub fn decode(alloc: Global, bytes: &[u8], source: Addr) -> Result<Vec<Placed>, Refusal>
    ensures ok { IfOk result (λ placed. meaning bytes.now source ≡ Ok placed.items) }
    ensures refused { IfErr result (λ refusal. Refuses refusal (meaning bytes.now source)) }
{
    let body = read_header(bytes)?;
    let Ok(mut placed) = Vec::with_capacity(alloc, body.len() / USUAL_TLV_LEN + 1) else {
        return Err(out_of_memory(body));
    };
    read_body(body, source, &mut placed)?;
    Ok(placed)
}

/// The same as [`decode`], into a list that the caller keeps. What was in the list before is gone;
/// it is empty if the datagram is refused.
///
/// The list keeps its capacity, so that mostly no memory is allocated.
#[tactic(auto, unfolding(crate::specs::Meaning::meaning))]
pub fn decode_into(bytes: &[u8], source: Addr, placed: &mut Vec<Placed>) -> Result<(), Refusal>
    ensures ok { OnOk result (meaning bytes.now source ≡ Ok placed.new.items) }
    ensures refused { IfErr result (λ refusal. Refuses refusal (meaning bytes.now source)) }
    ensures emptied { OnErr result (placed.new.items ≡ []) }
{
    placed.clear();
    let body = read_header(bytes)?;
    let read = read_body(body, source, placed);
    if read.is_err() {
        placed.clear();
    }
    read
}

/// The body of the datagram. The trailer, which follows it, isn't read.
fn read_header(bytes: &[u8]) -> Result<&[u8], Refusal>
    ensures ok { IfOk result (λ body. (header_refusal bytes.now ≡ None) × (body.now ≡ body_of bytes.now)) }
    ensures small { IfOk result (λ body. length body.now < 2 ^ 16) }
    ensures refused { IfErr result (λ refusal. header_refusal bytes.now ≡ Some refusal) }
{
    if bytes.len() < header::LEN {
        return Err(Refusal::Short);
    }
    if bytes[header::MAGIC_AT] != header::MAGIC {
        return Err(Refusal::Magic);
    }
    if bytes[header::VERSION_AT] != header::VERSION {
        return Err(Refusal::Version);
    }
    let end = header::LEN + word(bytes, header::BODY_LEN_AT) as usize;
    if bytes.len() < end {
        return Err(Refusal::BodyLength);
    }
    Ok(&bytes[header::LEN..end])
}

/// Appends the places of the body to the empty list, in one pass over it.
fn read_body(body: &[u8], source: Addr, placed: &mut Vec<Placed>) -> Result<(), Refusal>
    requires small { length body.now < 2 ^ 16 }
    requires empty { placed.old.items ≡ [] }
    ensures ok { OnOk result (body_meaning source (fault_of body.now) (places_of body.now) ≡ Ok placed.new.items) }
    ensures refused { IfErr result (λ refusal. Refuses refusal (body_meaning source (fault_of body.now) (places_of body.now))) }
{
    let mut state = ParserState::new(source);
    let mut tlvs = walk(body);
    while let Some(tlv) = tlvs.next() {
        if placed.capacity() <= placed.len() && !grows(placed) {
            return Err(out_of_memory(body));
        }
        read_place(tlv, &mut state, placed);
    }
    match tlvs.fault() {
        Some(fault) => Err(Refusal::Tlv(header::LEN + fault.offset)),
        None => Ok(()),
    }
}

/// Makes room for a place more. False if the memory for it was refused.
#[cold]
#[inline(never)]
fn grows(placed: &mut Vec<Placed>) -> bool
    ensures kept { placed.new.items ≡ placed.old.items }
    ensures room { IsTrue result → vec_len placed.new < vec_capacity placed.new }
{
    placed.reserve(1).is_ok()
}

/// The refusal when an allocation failed: that of the datagram itself, if it has one.
#[cold]
#[inline(never)]
fn out_of_memory(body: &[u8]) -> Refusal
    requires { length body.now < 2 ^ 16 }
    ensures { MatchOption (fault_of body.now) (result ≡ Refusal.Memory) (λ offset. result ≡ Refusal.Tlv (datagram_header_len + offset)) }
{
    match split(body) {
        Ok(_) => Refusal::Memory,
        Err(fault) => Refusal::Tlv(header::LEN + fault.offset),
    }
}

/// Reads a TLV into the capacity that is left, and sets the parser state for the TLVs after it.
#[inline]
#[tactic(auto, unfolding(crate::specs::Meaning::content, crate::specs::LookBack::update_address, crate::specs::NextHops::named_hop4, crate::specs::NextHops::named_hop6, crate::specs::RouterIds::named_router))]
fn read_place(tlv: Tlv, state: &mut ParserState, placed: &mut Vec<Placed>)
    requires near { tlv.offset + datagram_header_len < 2 ^ 64 }
    requires room { vec_len placed.old < vec_capacity placed.old }
    ensures placed { placed.new.items ≡ put placed.old.items (datagram_header_len + tlv.entry.offset) (content state.old tlv.entry.kind tlv.entry.payload.now) }
    ensures state { state.new ≡ after state.old tlv.entry.kind tlv.entry.payload.now }
{
    let offset = header::LEN + tlv.offset;
    match tlv.kind {
        PAD1 | PAD_N => push_ignored(placed, offset, Reason::Padding),
        ACK_REQUEST => read_ack_request(tlv.payload, offset, placed),
        ACK => read_ack(tlv.payload, offset, placed),
        HELLO => read_hello(tlv.payload, offset, placed),
        IHU => read_ihu(tlv.payload, offset, placed),
        ROUTER_ID => read_router_id(tlv.payload, offset, state, placed),
        NEXT_HOP => read_next_hop(tlv.payload, offset, state, placed),
        UPDATE => read_update(tlv.payload, offset, state, placed),
        ROUTE_REQUEST => read_route_request(tlv.payload, offset, placed),
        SEQNO_REQUEST => read_seqno_request(tlv.payload, offset, placed),
        _ => push_ignored(placed, offset, Reason::UnknownType),
    }
}
