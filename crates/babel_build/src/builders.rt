//! The builder.
//!
//! `add` is linear in the octets of the message, and `finish` takes a constant number of steps.

ghost use Rattle.std.specs.Prelude.{◌≡◌, List, [], ◌∷◌, ◌++◌, true, drop, IsTrue};
ghost use Rattle.std.specs.Bool.{OnTrue, OnFalse};
ghost use Rattle.babel_message.specs.declared.messages.Message.{Message};
ghost use Rattle.babel_packet.specs.Encodable.{is_encodable};
ghost use Rattle.babel_message.specs.Layout.{datagram_header_len};
ghost use Rattle.babel_packet.specs.BodyMeanings.{Means, datagram};
ghost use Rattle.babel_build.specs.Built.{HasEncoded, IsBegun, fits, added};

use crate::fields::octets_of;
use crate::messages::put_message;
use crate::tlvs::Datagram;
use arrayvec::ArrayVec;
use babel_message::{HEADER_LEN, MAGIC, Message, VERSION};
use babel_packet::ParserState;
use babel_packet::laws::{compressed_is_read, fields_are_whole, one_more_message};
use babel_tlv::DATAGRAM_LEN;
use babel_value::Addr;
use std::marker::Model;

/// A datagram of at most 1,024 octets that is being built. It allocates nothing.
///
/// A clause sees the address that it will be sent from, and the body so far.
#[derive(Drop)]
pub struct Builder {
    source: Addr,
    octets: Datagram,
    state: ParserState,
}

impl Model for Builder {
    ghost use Rattle.std.specs.Prelude.{◌≡◌, ◌≤◌, drop, length};
    ghost use Rattle.babel_message.specs.Layout.{datagram_header_len};
    ghost use Rattle.babel_build.specs.Built.{Built, IsBegun, IsKept};

    ghost Value = { Built };

    ghost view = { λ b. record { source = b.source; body = drop datagram_header_len b.octets.items } };

    ghost invariant = { λ b. IsBegun b.octets.items × IsKept b.source (drop datagram_header_len b.octets.items) b.state };
}

impl Builder {
    /// A datagram without messages, to be sent from this address. A receiver takes the address as
    /// the next hop of its family (RFC 8966, section 4.6.8).
    pub fn new(source: Addr) -> Builder
        ensures empty { result ≡ record { source = source; body = [] } }
        ensures silent { HasEncoded result [] }
    {
        one_more_message();
        let mut octets = ArrayVec::new();
        octets.push(MAGIC);
        octets.push(VERSION);
        octets.push(0);
        octets.push(0);
        let state = ParserState::new(source);
        Builder {
            source,
            octets,
            state,
        }
    }

    /// Begins another datagram in place of this one. It is the same as a new builder, but no octet
    /// is moved.
    pub fn begin(&mut self, source: Addr)
        ensures empty { self.new ≡ record { source = source; body = [] } }
        ensures silent { HasEncoded self.new [] }
    {
        one_more_message();
        self.source = source;
        self.octets.truncate(HEADER_LEN);
        self.state = ParserState::new(source);
    }

    /// Adds the message in few octets (RFC 8966, section 4.5), if its TLVs fit. Otherwise it
    /// returns `false`, and nothing has changed.
    #[must_use]
    pub fn add(&mut self, message: &Message) -> bool
        ensures fits { result ≡ fits self.old message.now }
        ensures added { OnTrue result (self.new ≡ added self.old message.now) }
        ensures unchanged { OnFalse result (self.new ≡ self.old) }
        // A datagram that means some messages means this message after them.
        ensures decoded { (decoded : List Message) → HasEncoded self.old decoded → IsTrue result → is_encodable message.now ≡ true
            → HasEncoded self.new (decoded ++ message.now ∷ []) }
        // Any message fits into an empty datagram.
        ensures alone { self.old.body ≡ [] → IsTrue result }
    {
        fields_are_whole(message);
        compressed_is_read();
        let before = self.octets.len();
        let fits = put_message(&mut self.octets, &mut self.state, message);
        if !fits {
            self.octets.truncate(before);
        }
        fits
    }

    /// Writes the datagram to `out`, in place of what was there: the header with the length of the
    /// body, and the body.
    pub fn write_to(&self, out: &mut ArrayVec<u8, DATAGRAM_LEN>)
        ensures octets { out.new.items ≡ datagram self.now.body }
        // The datagram means the messages that were added.
        ensures means { (decoded : List Message) → HasEncoded self.now decoded → Means out.new.items self.now.source decoded }
    {
        one_more_message();
        copy_to(&self.octets, out);
        set_length(out);
    }

    /// The datagram, as [`Builder::write_to`] writes it.
    pub fn finish(self) -> ArrayVec<u8, DATAGRAM_LEN>
        ensures octets { result.items ≡ datagram self.body }
        ensures means { (decoded : List Message) → HasEncoded self decoded → Means result.items self.source decoded }
    {
        one_more_message();
        let mut octets = self.octets;
        set_length(&mut octets);
        octets
    }
}

/// Makes the second the same as the first.
fn copy_to(octets: &Datagram, out: &mut Datagram)
    ensures { out.new.items ≡ octets.now.items }
{
    out.clear();
    out.try_extend_from_slice(octets.as_slice()).unwrap();
}

/// Writes the length of the body into the header.
fn set_length(octets: &mut Datagram)
    requires { IsBegun octets.old.items }
    ensures { octets.new.items ≡ datagram (drop datagram_header_len octets.old.items) }
{
    let length = octets.len() - HEADER_LEN;
    let [high, low] = octets_of(length as u16);
    octets[2] = high;
    octets[3] = low;
}
