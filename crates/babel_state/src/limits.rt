//! How much a speaker has room for, and what its configuration may say.

/// The most interfaces of a speaker.
pub const MAX_INTERFACES: usize = 8;

/// The most peers of an interface.
pub const MAX_PEERS: usize = 16;

/// The most prefixes that a speaker announces.
pub const MAX_PREFIXES: usize = 64;

/// The most pending requests for a seqno (RFC 8966, section 3.2.7).
pub const MAX_REQUESTS: usize = 64;

/// The most pending items. If one more is queued, the oldest is dropped.
pub const MAX_PENDING: usize = 4096;

/// The greatest nominal cost of an interface; the least is 1.
pub const MAX_COST: u16 = 65_534;

/// The greatest Hello interval of an interface, in centiseconds; the least is 1.
pub const MAX_HELLO_INTERVAL: u16 = 4000;

/// The hop count of a Seqno Request that is made here (RFC 8966, section 3.8.2.1).
pub const REQUEST_HOPS: u8 = 64;

/// How long a pending request first waits until it is queued again, in centiseconds (RFC 8966,
/// section 3.8.2.1). Each time the wait doubles.
pub const REQUEST_WAIT: u16 = 200;

/// The wait after which a pending request isn't queued again, in centiseconds.
pub const LAST_REQUEST_WAIT: u16 = 1600;
