//! Why a table refuses.

use thiserror::Error;

/// The key is new, and the table is full.
#[derive(Clone, Copy, Debug, PartialEq, Eq, Error)]
#[error("the table is full")]
pub struct Full;
