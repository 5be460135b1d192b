//! Why a text is no value, and why a table or a list of the crates above is not made.

use std::alloc::AllocError;
use thiserror::Error;

/// A text that is no address.
#[derive(Clone, Copy, Debug, PartialEq, Eq, Error)]
#[error("not an IPv4 or IPv6 address")]
pub struct AddrTextFault;

/// An allocation failed.
#[derive(Clone, Copy, Debug, PartialEq, Eq, Error)]
#[error("out of memory")]
pub struct Memory;

impl From<AllocError> for Memory {
    fn from(_failed: AllocError) -> Memory {
        Memory
    }
}
