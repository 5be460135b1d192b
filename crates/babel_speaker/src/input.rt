//! What arrives: messages and the steps that they make (RFC 8966, sections 3.4 to 3.8).

pub mod causes;
pub mod hellos;
pub mod losses;
pub mod lost_links;
pub mod messages;
pub mod receiving;
pub mod records;
pub mod request_receivers;
pub mod reselection;
pub mod selection_changes;
pub mod seqno_requests;
pub mod sources;
pub mod updates;
