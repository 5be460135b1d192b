//! The fault of octets that no list of TLVs spells.

use thiserror::Error;

/// A TLV runs past the end of the octets, or a type other than Pad1 is the last of them.
#[derive(Clone, Copy, Debug, PartialEq, Eq, Error)]
#[error("the TLV at offset {offset} runs past the end")]
pub struct TlvFault {
    /// How many octets precede the type of that TLV.
    pub offset: usize,
}
