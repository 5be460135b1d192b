//! Why a call of a wire fails.

use thiserror::Error;

/// A call of a wire failed: nothing was received, or the datagram or a copy of it was not sent.
/// Other copies may have been.
#[derive(Clone, Copy, Debug, PartialEq, Eq, Error)]
#[error("the wire failed")]
pub struct WireFault;
