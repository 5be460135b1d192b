//! The prefixes of Updates that are ignored.
//!
//! The decoder returns no prefix with a reason. But a retraction without sub-TLVs needs no
//! router-id, no next hop and no interval. So the datagram is decoded once more, with each such
//! Update turned into a retraction of its prefix.

use babel_message::layout::update;
use babel_message::{AE_WILDCARD, Content, Message, Placed, Reason, UPDATE};
use babel_value::Prefix;
use std::alloc::{AllocError, Global};
use std::ops::Range;

/// How many octets of a TLV precede its payload.
const TLV_HEAD: usize = 2;

/// Whether an Update that is ignored for the reason has a prefix that can be read: with I4, I5 and
/// I8 to I10.
pub(crate) fn has_prefix(reason: &Reason) -> bool {
    matches!(
        reason,
        Reason::TailOverrun
            | Reason::MandatorySubTlv(_)
            | Reason::NoRouterId
            | Reason::NoNextHop
            | Reason::ZeroInterval
    )
}

/// Whether a TLV is ignored for such a reason.
fn is_readable(place: &Placed) -> bool {
    match &place.content {
        Content::Ignored(reason) => has_prefix(reason),
        _ => false,
    }
}

/// Whether one of the TLVs is.
pub(crate) fn has_readable(placed: &[Placed]) -> bool {
    for place in placed {
        if is_readable(place) {
            return true;
        }
    }
    false
}

/// The prefix of a retraction.
pub(crate) fn retracted_prefix(place: &Placed) -> Option<Prefix> {
    match place.content {
        Content::Message(Message::Retraction { prefix, .. }) => Some(prefix),
        _ => None,
    }
}

/// The datagram with each such Update turned into a retraction without sub-TLVs. Its flags stay,
/// and so what later TLVs mean.
pub(crate) fn with_retractions(
    alloc: Global,
    octets: &[u8],
    placed: &[Placed],
) -> Result<Vec<u8>, AllocError> {
    let mut copy = Vec::from_slice(alloc, octets)?;
    for place in placed {
        if is_readable(place) {
            retract(&mut copy, place.offset);
        }
    }
    Ok(copy)
}

/// Turns the Update at the offset into a retraction without sub-TLVs. Another TLV, and one that has
/// no prefix, stays as it is.
fn retract(octets: &mut [u8], offset: usize) {
    let payload = offset.saturating_add(TLV_HEAD);
    let kind = octet_at(octets, offset, 0);
    let len = octet_at(octets, offset, 1);
    let encoding = octet_at(octets, payload, update::AE);
    if kind != UPDATE || encoding == AE_WILDCARD {
        return;
    }
    let bits = octet_at(octets, payload, update::PLEN);
    let omitted = octet_at(octets, payload, update::OMITTED);
    let written = usize::from(bits.div_ceil(8).saturating_sub(omitted));
    set_octets(octets, payload, update::METRIC..update::METRIC + 2, 0xff);
    // Each octet of 0 is a sub-TLV without meaning, a Pad1.
    set_octets(octets, payload, update::LEN + written..usize::from(len), 0);
}

/// The octet at the index from the place on, or 0 if there is none.
fn octet_at(octets: &[u8], place: usize, index: usize) -> u8 {
    match octets.get(place.saturating_add(index)) {
        Some(octet) => *octet,
        None => 0,
    }
}

/// Sets the octets of the range from the place on.
fn set_octets(octets: &mut [u8], place: usize, range: Range<usize>, value: u8) {
    for index in range {
        if let Some(octet) = octets.get_mut(place.saturating_add(index)) {
            *octet = value;
        }
    }
}
