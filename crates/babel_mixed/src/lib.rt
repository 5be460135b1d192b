//! A network of ours among routers of others: whatever these send from their own addresses, our
//! nodes make no loop among themselves.
#![tactic(auto)]

mod events;
pub mod laws;
mod mixed;
mod updates;

pub use babel_net::{HearFault, Heard};
pub use events::{MixedEvent, MixedFault};
pub use mixed::MixedNetwork;
pub use updates::HeardUpdate;
