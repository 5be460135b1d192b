//! What a speaker makes of each datagram that comes, for others to see.

use crate::Arrival;
use babel_state::{Note, RecvFault};

/// Sees what a speaker makes of each datagram that a wire receives. It can't change the speaker.
pub trait Receipts {
    /// A datagram came, and the moment is `now`, in centiseconds. The speaker took it, with a note
    /// for each of its TLVs, or refused it.
    fn received(
        &mut self,
        _now: u64,
        _arrival: &Arrival,
        _octets: &[u8],
        _outcome: &Result<Vec<Note>, RecvFault>,
    ) {}
}

/// Sees nothing.
#[derive(Clone, Copy)]
pub struct NoReceipts;

impl Receipts for NoReceipts {}
