//! One pass over TLVs, up to the first fault.

ghost use Rattle.std.specs.Prelude.{◌≡◌, ◌<◌, ◌≤◌, drop, length, slice_range, option_map, IfSome};
ghost use Rattle.babel_tlv.specs.Place.{fault_reached};
ghost use Rattle.babel_tlv.specs.Split.{places_of, fault_of, first_of};

use crate::{PAD1, TLV_HEADER_LEN, Tlv, TlvFault};
use std::marker::Model;

/// An iterator over TLVs that stops at the end of the octets, or at the first TLV that runs past
/// it. [`Walker::fault`] returns that TLV.
///
/// A clause sees the places that are ahead, the fault after them, and the end of the octets.
#[derive(Drop)]
pub struct Walker<'a> {
    bytes: &'a [u8],
    offset: usize,
}

impl<'a> Model for Walker<'a> {
    ghost use Rattle.std.specs.Prelude.{◌≤◌, drop, length};
    ghost use Rattle.babel_tlv.specs.Place.{Ahead};
    ghost use Rattle.babel_tlv.specs.Split.{places_at, fault_at};

    ghost Value = { Ahead };

    ghost view = { λ s. record {
      places = places_at 0 s.offset (drop s.offset s.bytes.now);
      fault = fault_at 0 s.offset (drop s.offset s.bytes.now);
      end = length s.bytes.now;
    } };

    ghost invariant = { λ s. s.offset ≤ length s.bytes.now };
}

impl<'a> Iterator for Walker<'a> {
    ghost use Rattle.std.specs.Iterator.{item_count};
    ghost use Rattle.babel_tlv.specs.Walk.{GoesOn};

    type Item = Tlv<'a>;

    ghost next_gives = { GoesOn };

    ghost remaining = { item_count (λ s. s.places) };

    #[inline]
    fn next(&mut self) -> Option<Tlv<'a>> {
        let offset = self.offset;
        let (kind, start, end) = first_at(self.bytes, offset)?;
        self.offset = end;
        Some(Tlv {
            offset,
            kind,
            payload: &self.bytes[start..end],
        })
    }
}

impl Walker<'_> {
    /// The fault that ended the walk: the TLV that runs past the end of the octets. `None` if the
    /// walk ended without a fault, or a TLV is still ahead.
    pub fn fault(&self) -> Option<TlvFault>
        ensures value { option_map (λ fault. fault.offset) result ≡ fault_reached self.now }
        ensures within { IfSome result (λ fault. fault.offset < self.now.end) }
    {
        if self.offset == self.bytes.len() {
            return None;
        }
        if first_at(self.bytes, self.offset).is_some() {
            return None;
        }
        Some(TlvFault {
            offset: self.offset,
        })
    }
}

/// Walks over the TLVs of a packet's body, or over the sub-TLVs of a TLV, in one pass.
#[inline]
pub fn walk(bytes: &[u8]) -> Walker<'_>
    ensures places { result.places ≡ places_of bytes.now }
    ensures fault { result.fault ≡ fault_of bytes.now }
    ensures end { result.end ≡ length bytes.now }
    ensures few { length result.places ≤ length bytes.now }
{
    Walker { bytes, offset: 0 }
}

// The type of the TLV at this offset, and where its payload begins and ends, if that TLV is whole.
#[inline]
fn first_at(bytes: &[u8], offset: usize) -> Option<(u8, usize, usize)>
    requires { offset ≤ length bytes.now }
    ensures value { option_map (λ r. (r.0, slice_range bytes.now r.1 r.2, drop r.2 bytes.now)) result
        ≡ first_of (drop offset bytes.now) }
    ensures within { IfSome result (λ r. (r.1 ≤ r.2) × (r.2 ≤ length bytes.now)) }
{
    let left = bytes.len() - offset;
    if left == 0 {
        return None;
    }
    let kind = bytes[offset];
    if kind == PAD1 {
        return Some((kind, offset + 1, offset + 1));
    }
    if left < TLV_HEADER_LEN {
        return None;
    }
    let length = usize::from(bytes[offset + 1]);
    if left - TLV_HEADER_LEN < length {
        return None;
    }
    let start = offset + TLV_HEADER_LEN;
    Some((kind, start, start + length))
}
