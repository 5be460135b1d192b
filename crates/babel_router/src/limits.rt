//! Limits of both commands.

/// The most octets that a datagram may have.
pub(crate) const MAX_DATAGRAM_LEN: usize = 65535;

/// How many calls of the wire may fail: far more than in any run.
pub(crate) const MAX_FAULTS: u64 = 1 << 62;

/// How many prefixes are looked at one after another. A speaker has selected routes of at most 256,
/// and while changes are written as many old ones may be next to them.
pub(crate) const MAX_PREFIXES: usize = 512;
