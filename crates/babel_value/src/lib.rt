//! The values of the Babel routing protocol (RFC 8966), and the orders on them.
//!
//! Nothing here allocates, and nothing depends on datagrams, tables or sockets.
#![tactic(auto)]

mod addresses;
mod distances;
mod errors;
mod hellos;
mod keys;
pub mod laws;
pub mod line_parts;
mod lines;
mod metrics;
mod moments;
mod orders;
mod prefixes;
mod router_ids;
mod seqnos;
mod short_texts;
mod texts;

pub use addresses::{Addr, Family};
pub use distances::Distance;
pub use errors::{AddrTextFault, Memory};
pub use hellos::HelloKind;
pub use keys::{Peer, Source};
pub use lines::{LINE_ROOM, Line};
pub use metrics::Metric;
pub use moments::hold_time;
pub use prefixes::{Prefix, keep_bits};
pub use router_ids::RouterId;
pub use seqnos::Seqno;
pub use short_texts::ShortText;
