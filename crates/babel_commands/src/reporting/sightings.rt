//! What a TLV of a datagram has of a prefix.

use babel_message::{Content, Message, Placed, Reason};
use babel_value::{Addr, Prefix};

/// What a TLV has of a prefix.
#[derive(Clone, Copy)]
pub(crate) enum Sighting {
    /// A route with a finite metric.
    Update,
    /// A retraction.
    Retraction,
    /// An Update that is ignored.
    Ignored(Reason),
}

/// What the TLV has of the prefix, if it names it. Of an ignored Update the written octets are
/// compared.
pub(crate) fn sighting_in(place: &Placed, datagram: &[u8], prefix: &Prefix) -> Option<Sighting> {
    match place.content {
        Content::Message(Message::Update { prefix: named, .. }) if is_same(&named, prefix) => {
            Some(Sighting::Update)
        }
        Content::Message(Message::Retraction { prefix: named, .. }) if is_same(&named, prefix) => {
            Some(Sighting::Retraction)
        }
        Content::Ignored(reason) if names(datagram, place.offset, prefix) => {
            Some(Sighting::Ignored(reason))
        }
        _ => None,
    }
}

fn is_same(one: &Prefix, other: &Prefix) -> bool {
    one.cmp(other).is_eq()
}

/// Whether the TLV at the offset is an Update (RFC 8966, section 4.6.9) whose written octets are
/// those of the prefix.
fn names(datagram: &[u8], offset: usize, prefix: &Prefix) -> bool {
    let Some(tlv) = datagram.get(offset..) else {
        return false;
    };
    let [
        8,
        _,
        encoding,
        _,
        length,
        omitted,
        _,
        _,
        _,
        _,
        _,
        _,
        written @ ..,
    ] = tlv
    else {
        return false;
    };
    if *length != prefix.length() {
        return false;
    }
    match prefix.addr() {
        Addr::V4(octets) => *encoding == 1 && has_octets(written, *omitted, &octets, *length),
        Addr::V6(octets) => *encoding == 2 && has_octets(written, *omitted, &octets, *length),
    }
}

/// Whether the written octets are those of an address from the omitted ones up to the length.
fn has_octets(written: &[u8], omitted: u8, octets: &[u8], length: u8) -> bool {
    let count = usize::from(length).div_ceil(8);
    match octets.get(usize::from(omitted)..count) {
        Some(wanted) => written.starts_with(wanted),
        // All octets are omitted.
        None => true,
    }
}
