//! Turns of a speaker that may be killed at any moment: its snapshot is kept before a datagram is
//! sent.

mod driving;
mod intake;
mod keeper;
mod losing;
mod outbox;
mod report;
mod requesting;
mod store;

pub use driving::{DurableDriver, Observer, drive_durable};
pub use intake::take_in;
pub use keeper::Keeper;
pub use losing::lose_links;
pub use report::DurableReport;
pub use requesting::request_seqnos;
pub use store::{DurableWire, StoreFault};
