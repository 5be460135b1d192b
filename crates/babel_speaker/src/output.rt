//! What leaves: pending items, the messages that they mean, and the datagrams that carry them.

pub mod datagrams;
pub mod forms;
pub mod items;
pub mod messages;
pub mod queueing;
pub mod records;
