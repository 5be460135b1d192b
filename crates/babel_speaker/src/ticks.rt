//! What time brings: timers that are due, and when the next one is (RFC 8966, sections 3.2 and
//! 3.8).

pub mod deadlines;
pub mod due_items;
pub mod requesting;
pub mod ticking;
