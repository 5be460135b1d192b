//! Datagrams that are decoded: their messages can be encoded again.

ghost use Rattle.std.specs.Prelude.{◌≡◌, List, Ok, IfOk, IfErr};
ghost use Rattle.babel_message.specs.declared.placements.Placed.{Placed};
ghost use Rattle.babel_packet.specs.Encodable.{AreOctets, IsAddr};
ghost use Rattle.babel_packet.specs.Meaning.{meaning, messages_of, Refuses};
ghost use Rattle.babel_state.specs.SeenLaws.{AreEncodable};

use babel_message::{Placed, Refusal};
use babel_packet::decode;
use babel_packet::laws::decoded_are_sendable;
use babel_value::Addr;
use std::alloc::Global;
use std::marker::Model;

#[inline]
fn octets_are_small(octets: &[u8])
    ensures { AreOctets octets.now }
{}

#[inline]
fn addr_is_whole(addr: &Addr)
    ensures { IsAddr addr.now }
{
    match addr {
        Addr::V4(octets) => octets_are_small(octets),
        Addr::V6(octets) => octets_are_small(octets),
    }
}

/// If octets from a source address can be read, their messages can be encoded.
#[inline]
pub(crate) fn decoded_are_encodable(octets: &[u8], source: &Addr)
    ensures { (placed : List Placed) → meaning octets.now source.now ≡ Ok placed → AreEncodable (messages_of placed) }
{
    octets_are_small(octets);
    addr_is_whole(source);
    decoded_are_sendable();
}

/// A datagram that is decoded: its source address, and what its octets mean. A caller that needs
/// the messages itself decodes the datagram once, and passes it to
/// [`Speaker::receive_decoded`](crate::Speaker::receive_decoded).
#[derive(Drop)]
pub struct Decoded {
    source: Addr,
    placed: Vec<Placed>,
}

impl Model for Decoded {
    ghost use Rattle.babel_speaker.specs.Decodings.{DecodedValue, IsDecoding};

    ghost Value = { DecodedValue };

    ghost view = { λ d. record { source = d.source; placed = d.placed.items } };

    ghost invariant = { λ d. IsDecoding (record { source = d.source; placed = d.placed.items }) };
}

impl Decoded {
    /// Decodes the octets of a datagram that came from the source address.
    ///
    /// # Errors
    ///
    /// Those of [`decode`].
    pub fn new(alloc: Global, octets: &[u8], source: Addr) -> Result<Decoded, Refusal>
        ensures ok { IfOk result (λ decoded. meaning octets.now source ≡ Ok decoded.placed) }
        ensures source { IfOk result (λ decoded. decoded.source ≡ source) }
        ensures refused { IfErr result (λ refusal. Refuses refusal (meaning octets.now source)) }
    {
        octets_are_small(octets);
        addr_is_whole(&source);
        match decode(alloc, octets, source) {
            Ok(placed) => Ok(Decoded { source, placed }),
            Err(refusal) => Err(refusal),
        }
    }

    /// The address that the datagram came from.
    pub fn source(&self) -> Addr
        ensures { result ≡ self.now.source }
    {
        self.source
    }

    /// The messages, and what else its octets mean, in their order.
    pub fn placed(&self) -> &[Placed]
        ensures { result.now ≡ self.now.placed }
    {
        self.placed.as_slice()
    }
}

/// The messages of a datagram that is decoded can be encoded.
#[inline]
pub(crate) fn is_encodable_again(decoded: &Decoded)
    ensures { AreEncodable (messages_of decoded.now.placed) }
{
    let _count = decoded.placed.len();
    decoded_are_sendable();
}
