//! What a speaker keeps over a restart, as octets: its router-id, its own seqno, how often that
//! grew, and its source table (RFC 8966, sections 3.2.2 and 3.2.5).
//!
//! - `layout`: the lengths and offsets, which reader and writer share.
//! - `records`: one source and its distance.
//! - `reading`: octets are tested, and read without an allocation.
//! - `writing`: the octets of a source table.
//! - `laws`: laws of the definitions.
#![tactic(auto)]

pub mod laws;
mod layout;
mod reading;
mod records;
mod writing;

pub use layout::{HEAD_LEN, MAX_RECORDS, RECORD_LEN};
pub use reading::SavedState;
pub use writing::save;
