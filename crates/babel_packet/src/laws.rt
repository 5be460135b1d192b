//! Laws of the definitions, each the contract of an empty function.

ghost use Rattle.std.specs.Prelude.{◌≡◌, ℕ, List, [], ◌∷◌, ◌++◌, Some, true};
ghost use Rattle.babel_value.specs.declared.addresses.Addr.{Addr};
ghost use Rattle.babel_tlv.specs.Spelling.{spelled};
ghost use Rattle.babel_message.specs.declared.messages.Message.{Message};
ghost use Rattle.babel_message.specs.Layout as standard;
ghost use Rattle.babel_packet.specs.Latest.{DefaultIsLatest, RouterIsLatest, NextHopIsLatest};
ghost use Rattle.babel_packet.specs.ReasonTable.{ReasonsAreFirst, StatesAreOfTwoTypes};
ghost use Rattle.babel_packet.specs.Payloads.{octets, router_id_payload, next_hop_payload, kind_of, payload_of};
ghost use Rattle.babel_packet.specs.Encodable.{is_encodable, AreOctets, IsAddr, IsPrefix, IsRouterId, IsMessage};
ghost use Rattle.babel_packet.specs.Decoded.{DecodedAreSendable};
ghost use Rattle.babel_packet.specs.BodyMeanings.{BodyMeans, Means, Provides, state_after, hop_for, datagram};

pub use crate::compression::compressed_is_read;
use babel_message::Message;
use babel_tlv::laws::put_is_one_more;
use babel_value::{Addr, Prefix, RouterId};

/// The parser state at a TLV (RFC 8966, section 4.5). The default prefix of each encoding, the
/// router-id and the next hop of each family are those of the latest earlier TLV that sets one.
/// Before the first of them, there is no default prefix and no router-id, and the source address is
/// the next hop of its own family.
pub fn looks_back()
    ensures default_prefix { DefaultIsLatest }
    ensures router_id { RouterIsLatest }
    ensures next_hop { NextHopIsLatest }
{}

/// Why a TLV is ignored: the first reason of the table I1 to I13 that applies. A TLV to which none
/// applies isn't ignored: a Router-Id and a Next Hop are state, and any other TLV is a message.
pub fn reasons_are_the_first_that_apply()
    ensures reason { ReasonsAreFirst }
    ensures state { StatesAreOfTwoTypes }
{}

/// The messages of a body that grows by one TLV (RFC 8966, section 4.6). The TLV of a message adds
/// the message, if the parser state has the router-id and next hop of an Update. A Router-Id and a
/// Next Hop add no message, and set the parser state. A datagram means the messages of its body.
#[inline]
pub fn one_more_message()
    ensures nothing { (source : Addr) → BodyMeans source [] [] }
    ensures message { (source : Addr) (body : List ℕ) (decoded : List Message) (message : Message) → BodyMeans source body decoded
        → IsMessage message → is_encodable message ≡ true → Provides (state_after source body) message
        → BodyMeans source (body ++ spelled (kind_of message) (payload_of message)) (decoded ++ message ∷ []) }
    ensures router_id { (source : Addr) (body : List ℕ) (decoded : List Message) (router : List ℕ) → BodyMeans source body decoded → IsRouterId router
        → BodyMeans source (body ++ spelled standard.router_id (router_id_payload router)) decoded
        × ((state_after source (body ++ spelled standard.router_id (router_id_payload router))).router ≡ Some router) }
    ensures next_hop { (source : Addr) (body : List ℕ) (decoded : List Message) (hop : Addr) → BodyMeans source body decoded → IsAddr hop
        → BodyMeans source (body ++ spelled standard.next_hop (next_hop_payload hop)) decoded
        × (hop_for hop (state_after source (body ++ spelled standard.next_hop (next_hop_payload hop))) ≡ Some (octets hop))
        × ((state_after source (body ++ spelled standard.next_hop (next_hop_payload hop))).router ≡ (state_after source body).router) }
    ensures datagram { (source : Addr) (body : List ℕ) (decoded : List Message) → BodyMeans source body decoded
        → Means (datagram body) source decoded }
{
    put_is_one_more();
}

/// Every message of a datagram can be sent as it is: its fields are whole, its metric, costs,
/// intervals and hop count are in range, and the next hop of an Update is of the prefix's family.
#[tactic(auto, using(crate::proofs::Sendable::decoded_are_sendable))]
pub fn decoded_are_sendable()
    ensures { DecodedAreSendable }
{}

/// The octets of a message's fields are whole: each is below 256, a prefix has no bits past its
/// length, and no router-id is reserved.
#[inline]
pub fn fields_are_whole(message: &Message)
    ensures { IsMessage message.now }
{
    match message {
        Message::Ihu { to: Some(addr), .. } => addr_is_whole(addr),
        Message::Update {
            prefix,
            router,
            next_hop,
            ..
        } => {
            prefix_is_whole(prefix);
            router_id_is_whole(*router);
            addr_is_whole(next_hop);
        }
        Message::Retraction { prefix, .. } | Message::RouteRequest { prefix } => {
            prefix_is_whole(prefix)
        }
        Message::SeqnoRequest { prefix, router, .. } => {
            prefix_is_whole(prefix);
            router_id_is_whole(*router);
        }
        _ => {}
    }
}

#[inline]
fn addr_is_whole(addr: &Addr)
    ensures { IsAddr addr.now }
{
    match addr {
        Addr::V4(octets) => octets_are_small(octets),
        Addr::V6(octets) => octets_are_small(octets),
    }
}

#[inline]
fn octets_are_small(octets: &[u8])
    ensures { AreOctets octets.now }
{}

#[inline]
fn prefix_is_whole(prefix: &Prefix)
    ensures { IsPrefix prefix.now }
{
    let _length = prefix.length();
    addr_is_whole(&prefix.addr());
}

#[inline]
fn router_id_is_whole(router: RouterId)
    ensures { IsRouterId router }
{
    let _octets = router.octets();
}
