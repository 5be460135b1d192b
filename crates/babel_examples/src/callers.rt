//! Callers of the layers' calls: the clauses of these calls are enough for what a caller wants to
//! know.

ghost use Rattle.std.specs.Prelude.{◌≡◌, true, map, Some, None, IfSome, IfOk, MatchResult};
ghost use Rattle.std.specs.List.{list_all};
ghost use Rattle.babel_tlv.specs.Split.{places_of, fault_of};
ghost use Rattle.babel_packet.specs.Encodable.{is_encodable};
ghost use Rattle.babel_packet.specs.BodyMeanings.{Means};

use arrayvec::ArrayVec;
use babel_build::Builder;
use babel_message::Message;
use babel_tlv::{DATAGRAM_LEN, TlvFault, walk};
use babel_value::Addr;
use std::alloc::{AllocError, Global};

/// A caller in one pass: the offset and type of each TLV, or the fault.
pub fn outline(
    alloc: Global,
    bytes: &[u8],
) -> Result<Result<Vec<(usize, u8)>, TlvFault>, AllocError>
    ensures { IfOk result (λ outline. MatchResult outline
        (λ tlvs. (fault_of bytes.now ≡ None) × (tlvs.items ≡ map (λ t. (t.offset, t.kind)) (places_of bytes.now)))
        (λ e. fault_of bytes.now ≡ Some e.offset)) }
{
    let mut outline = Vec::new(alloc);
    let mut tlvs = walk(bytes);
    while let Some(tlv) = tlvs.next() {
        outline.push((tlv.offset, tlv.kind))?;
    }
    match tlvs.fault() {
        Some(fault) => Ok(Err(fault)),
        None => Ok(Ok(outline)),
    }
}

/// A caller: all the messages in one datagram, if they fit.
pub fn built(source: Addr, messages: &[Message]) -> Option<ArrayVec<u8, DATAGRAM_LEN>>
    ensures { IfSome result (λ datagram. list_all is_encodable messages.now ≡ true → Means datagram.items source messages.now) }
{
    let mut builder = Builder::new(source);
    for message in messages {
        if !builder.add(message) {
            return None;
        }
    }
    Some(builder.finish())
}
