//! What was counted while a speaker was driven and its snapshot kept.

use crate::Report;

/// How many datagrams and failures there were.
#[derive(Clone, Copy, Debug, Default, PartialEq, Eq)]
pub struct DurableReport {
    /// The counts of the wire. A datagram that was lost since the snapshot wasn't kept is none of
    /// them.
    pub report: Report,
    /// In how many turns the snapshot was to be kept, and wasn't: the store failed, or an
    /// allocation.
    pub failed_keeps: u64,
    /// How many datagrams were taken in those turns. None of them was sent.
    pub lost: u64,
}
