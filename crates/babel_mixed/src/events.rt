//! What happens in a network of ours among routers of others, and why it is refused.

ghost use Rattle.std.specs.Prelude.{◌≡◌};

use babel_machine::{Event, StepFault};
use babel_net::{HearFault, Heard};
use thiserror::Error;

/// An event of a node of ours, or what a node hears from a router of others.
#[derive(Debug, Drop)]
pub enum MixedEvent<'a> {
    /// An event of a node of ours.
    Ours(Event),
    /// A node hears a datagram of a router that isn't ours.
    Heard(Heard<'a>),
}

/// Why a network refuses a [`MixedEvent`]. A refused one changes nothing.
#[derive(Clone, Copy, Debug, PartialEq, Eq, Drop, Error)]
pub enum MixedFault {
    /// N1 to N7: an event of a node of ours.
    #[error(transparent)]
    Ours(StepFault),
    /// N8, N1, N3 or N6: a datagram of a router that isn't ours.
    #[error(transparent)]
    Heard(HearFault),
}

impl MixedFault {
    ghost use Rattle.babel_mixed.specs.MixedRuns.{mixed_code};

    /// The code, from `N1` to `N8`.
    pub fn code(self) -> &'static str
        ensures { result.now ≡ mixed_code self }
    {
        match self {
            MixedFault::Ours(fault) => fault.code(),
            MixedFault::Heard(fault) => fault.code(),
        }
    }
}
