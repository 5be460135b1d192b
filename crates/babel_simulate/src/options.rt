//! What a run may be asked for.

/// What a run may be asked for, in addition to the topology.
#[derive(Clone, Copy)]
pub struct Options {
    /// The seed of everything that is random.
    pub seed: u64,
    /// How long the network runs, in centiseconds.
    pub duration: u64,
    /// How many of 100 datagrams arrive twice.
    pub repeated: u16,
    /// How many of 100 datagrams arrive late, so that others overtake them.
    pub late: u16,
    /// How many octets of memory what is recorded may take.
    pub memory: u64,
    /// Whether the events are kept.
    pub events: KeptEvents,
}

/// Whether the events of a run are kept.
#[derive(Clone, Copy)]
pub enum KeptEvents {
    /// They are counted.
    Counted,
    /// They are kept, so that they can be written as a scenario.
    Kept,
}
