//! TLVs into a datagram that is being built.

ghost use Rattle.std.specs.Prelude.{◌≡◌, ◌≢◌, ◌+◌, ◌≤◌, ◌++◌, ◌↔◌, length, IsTrue};
ghost use Rattle.std.specs.Bool.{OnTrue, OnFalse};
ghost use Rattle.arrayvec.specs.ArrayVec.{array_vec_len};
ghost use Rattle.babel_tlv.specs.Layout.{pad1, header_len, max_payload_len, datagram_len};
ghost use Rattle.babel_tlv.specs.Spelling.{spelled};

use crate::{DATAGRAM_LEN, MAX_PAYLOAD_LEN, PAD1, TLV_HEADER_LEN};
use arrayvec::ArrayVec;

/// Appends the TLV of this type and payload, and returns whether it did. It doesn't if the type is
/// [`PAD1`], the payload has more than [`MAX_PAYLOAD_LEN`] octets, or the TLV doesn't fit.
#[must_use]
pub fn put(datagram: &mut ArrayVec<u8, DATAGRAM_LEN>, kind: u8, payload: &[u8]) -> bool
    ensures put { IsTrue result
        ↔ ((kind ≢ pad1) × (length payload.now ≤ max_payload_len)
        × (array_vec_len datagram.old + header_len + length payload.now ≤ datagram_len)) }
    ensures appended { OnTrue result (datagram.new.items ≡ datagram.old.items ++ spelled kind payload.now) }
    ensures unchanged { OnFalse result (datagram.new ≡ datagram.old) }
{
    if kind == PAD1
        || payload.len() > MAX_PAYLOAD_LEN
        || datagram.remaining_capacity() < TLV_HEADER_LEN + payload.len()
    {
        return false;
    }
    datagram.push(kind);
    datagram.push(payload.len() as u8);
    datagram.try_extend_from_slice(payload).is_ok()
}
