//! What was counted while a speaker was driven.

/// How many datagrams and failures there were.
#[derive(Clone, Copy, Debug, Default, PartialEq, Eq)]
pub struct Report {
    /// How many datagrams came, the refused ones among them.
    pub received: u64,
    /// How many datagrams were sent. One to all on an interface counts once.
    pub sent: u64,
    /// How many of the datagrams that came the speaker refused, also since an allocation failed.
    pub refused: u64,
    /// How many calls of the wire failed.
    pub faults: u64,
}
