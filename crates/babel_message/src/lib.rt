//! What a Babel datagram can mean (RFC 8966, section 4), as values and as texts.
//!
//! `messages` has the messages, `placements` the places of a datagram with the reasons why one is
//! ignored, and `errors` why a whole datagram is refused. `texts` prints them. `layout` has the
//! offsets, lengths and numbers of the wire format, which reader and builder share.
#![tactic(auto)]

mod errors;
pub mod laws;
pub mod layout;
mod messages;
mod placements;
mod texts;

pub use errors::{Refusal, RefusalCode};
pub use layout::addresses::{AE_IPV4, AE_IPV6, AE_LINK_LOCAL, AE_WILDCARD};
pub use layout::header::{LEN as HEADER_LEN, MAGIC, VERSION};
pub use layout::kinds::{
    ACK, ACK_REQUEST, HELLO, IHU, NEXT_HOP, ROUTE_REQUEST, ROUTER_ID, SEQNO_REQUEST, UPDATE,
};
pub use messages::Message;
pub use placements::{Content, Placed, Reason};
