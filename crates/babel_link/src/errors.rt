//! Why a call of the neighbours fails.

use thiserror::Error;

/// There is no room for another neighbour.
#[derive(Clone, Copy, Debug, PartialEq, Eq, Error)]
#[error("too many neighbours")]
pub struct Full;
