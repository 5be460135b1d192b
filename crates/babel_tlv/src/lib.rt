//! TLVs as octets: the one spelling that the TLVs of a Babel packet and the sub-TLVs of a TLV share
//! (RFC 8966, sections 4.3 and 4.4).
//!
//! [`split`] reads all of them or none, [`walk`] reads them in one pass up to the fault, and
//! [`put`] writes one.
#![tactic(auto)]

mod errors;
pub mod laws;
mod layout;
mod splitting;
mod tlvs;
mod walking;
mod writing;

pub use errors::TlvFault;
pub use layout::{DATAGRAM_LEN, MAX_PAYLOAD_LEN, PAD1, TLV_HEADER_LEN};
pub use splitting::{Tlvs, split};
pub use tlvs::Tlv;
pub use walking::{Walker, walk};
pub use writing::put;
