//! What a Babel datagram means (RFC 8966, section 4), as one call: [`decode`], or
//! [`decode_into`] with a list that the caller keeps.
//!
//! Each module reads one kind of TLV and has its own definition in `specs/`. `decoding` walks over
//! the datagram, and `parser_state` keeps what earlier TLVs set for later ones. The messages, the
//! reasons and the layout of the wire format are those of `babel_message`.
#![tactic(auto)]

mod acks;
mod addresses;
mod compression;
mod decoding;
mod hellos;
mod ihus;
pub mod laws;
mod next_hops;
mod numbers;
mod parser_state;
mod placements;
mod prefixes;
mod requests;
mod router_ids;
mod tails;
mod updates;

pub use babel_message::{Content, Message, Placed, Reason, Refusal};
pub use decoding::{decode, decode_into};
pub use parser_state::ParserState;
