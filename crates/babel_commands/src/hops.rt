//! The command `net`: the next hops of a network after each event of a scenario.

mod doings;
mod hops;
mod networks;
mod running;

pub use doings::EventLines;
pub use networks::EventFault;
pub use running::{net, try_net};
