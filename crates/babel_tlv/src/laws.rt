//! Laws of the spelling, each the contract of an empty function.

ghost use Rattle.std.specs.Prelude.{◌≡◌, ◌≢◌, ℕ, List, [], ◌∷◌, ◌++◌, length, None};
ghost use Rattle.babel_tlv.specs.Layout as layout;
ghost use Rattle.babel_tlv.specs.Place.{Place};
ghost use Rattle.babel_tlv.specs.Spelling.{Spells, spelled};
ghost use Rattle.babel_tlv.specs.Split.{places_of, fault_of};

use crate::{DATAGRAM_LEN, MAX_PAYLOAD_LEN, PAD1, TLV_HEADER_LEN};

/// The constants of the code are the numbers of the definitions.
pub fn layout_is_standard()
    ensures pad1 { PAD1 ≡ layout.pad1 }
    ensures header_len { TLV_HEADER_LEN ≡ layout.header_len }
    ensures max_payload_len { MAX_PAYLOAD_LEN ≡ layout.max_payload_len }
    ensures datagram_len { DATAGRAM_LEN ≡ layout.datagram_len }
{}

/// The octets that a list of TLVs spells are split into that list.
pub fn spelled_is_split()
    ensures places { (ts : List Place) (bytes : List ℕ) → Spells ts bytes → places_of bytes ≡ ts }
    ensures fault { (ts : List Place) (bytes : List ℕ) → Spells ts bytes → fault_of bytes ≡ None }
{}

/// A TLV that is spelled after octets without a fault is one place more, and no fault.
pub fn put_is_one_more()
    ensures places { (bytes : List ℕ) (kind : ℕ) (payload : List ℕ) → fault_of bytes ≡ None → kind ≢ layout.pad1
        → places_of (bytes ++ spelled kind payload)
        ≡ places_of bytes ++ record { offset = length bytes; kind = kind; payload = payload } ∷ [] }
    ensures fault { (bytes : List ℕ) (kind : ℕ) (payload : List ℕ) → fault_of bytes ≡ None
        → fault_of (bytes ++ spelled kind payload) ≡ None }
{}
