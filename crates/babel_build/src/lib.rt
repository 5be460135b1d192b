//! Datagrams of Babel messages, as octets (RFC 8966, section 4). [`Builder`] takes messages one by
//! one, and makes a datagram that means them.
//!
//! `fields` writes numbers, addresses and prefixes, `tlvs` each TLV, and `messages` each message.
//! `states` has what a reader keeps of earlier TLVs, which a message can leave out.
#![tactic(auto)]

mod builders;
mod equal;
mod fields;
mod messages;
mod states;
mod tlvs;

pub use builders::Builder;
