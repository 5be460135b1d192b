//! What a speaker is driven over if its snapshot is kept: a wire, and a store for the snapshot.

ghost use Rattle.std.specs.Prelude.{◌≡◌, [], ◌∷◌};
ghost use Rattle.babel_wire.specs.Calls.{call_of_keep, Grows};

use crate::Wire;
use thiserror::Error;

/// The store may not have kept the octets. What is on disk is these octets, or what was there
/// before.
#[derive(Clone, Copy, Debug, PartialEq, Eq, Error)]
#[error("the snapshot was not kept")]
pub struct StoreFault;

/// A wire, and a store that keeps one snapshot. The calls of both are in one history, in order.
pub trait DurableWire: Wire {
    /// Replaces the octets that are kept. On `Ok` they are on disk, and stay there whatever happens
    /// next.
    ///
    /// # Errors
    ///
    /// They may be on disk or not. A file that was renamed, but whose folder could not be synced,
    /// is such a failure.
    fn keep(&mut self, octets: &[u8]) -> Result<(), StoreFault>
        ensures history { Grows (Self.history self.old) (call_of_keep octets.now result ∷ []) (Self.history self.new) }
        ensures faults { Self.fault_count self.new ≡ Self.fault_count self.old };
}
