//! All TLVs or none.

ghost use Rattle.std.specs.Prelude.{◌≡◌, ◌≤◌, List, length, Some, None, IfOk, IfErr, IsOkAnd, MatchResult, option_map};
ghost use Rattle.std.specs.List.{AllByRecursion};
ghost use Rattle.babel_tlv.specs.Place.{Place};
ghost use Rattle.babel_tlv.specs.Spelling.{Spells, IsFault, IsSliceOf};
ghost use Rattle.babel_tlv.specs.Split.{places_of, fault_of};

use crate::{Tlv, TlvFault, Walker, walk};
use std::marker::Model;

/// An iterator over the TLVs of octets that a list of TLVs spells, in their order.
///
/// A clause sees the list of the places that are left.
#[derive(Drop)]
pub struct Tlvs<'a> {
    walk: Walker<'a>,
}

impl<'a> Model for Tlvs<'a> {
    ghost use Rattle.std.specs.Prelude.{List};
    ghost use Rattle.babel_tlv.specs.Place.{Place};

    ghost Value = { List Place };

    ghost view = { λ s. s.walk.places };
}

impl<'a> Iterator for Tlvs<'a> {
    ghost use Rattle.std.specs.Iterator.{YieldsFirstBy, item_count};
    ghost use Rattle.babel_tlv.specs.Walk.{place_of};

    type Item = Tlv<'a>;

    ghost next_gives = { YieldsFirstBy place_of (λ s. s) };

    ghost remaining = { item_count (λ s. s) };

    #[inline]
    fn next(&mut self) -> Option<Tlv<'a>> {
        self.walk.next()
    }
}

/// The TLVs that spell the octets, the body of a packet or the sub-TLVs of a TLV, each payload a
/// slice of them; or the offset of the first TLV that runs past their end.
pub fn split(bytes: &[u8]) -> Result<Tlvs<'_>, TlvFault>
    // The list that is returned spells the octets.
    ensures found { IfOk result (λ tlvs. Spells tlvs bytes.now) }
    ensures slices { IfOk result (λ tlvs. AllByRecursion (IsSliceOf bytes.now) tlvs) }
    ensures few { IfOk result (λ tlvs. length tlvs ≤ length bytes.now) }
    // A list that spells the octets is returned.
    ensures only { (ts : List Place) → Spells ts bytes.now → IsOkAnd result (λ tlvs. tlvs ≡ ts) }
    ensures fault { IfErr result (λ e. IsFault bytes.now e.offset) }
    // Both outcomes, as they are computed.
    ensures exact { MatchResult result
        (λ tlvs. (fault_of bytes.now ≡ None) × (tlvs ≡ places_of bytes.now))
        (λ e. fault_of bytes.now ≡ Some e.offset) }
{
    match first_fault(bytes) {
        Some(fault) => Err(fault),
        None => Ok(Tlvs { walk: walk(bytes) }),
    }
}

// The fault of the octets, if they have one.
fn first_fault(bytes: &[u8]) -> Option<TlvFault>
    ensures { option_map (λ fault. fault.offset) result ≡ fault_of bytes.now }
{
    let mut tlvs = walk(bytes);
    while let Some(_tlv) = tlvs.next() {}
    tlvs.fault()
}
