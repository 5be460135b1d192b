//! Whether people read what a command writes.

/// Whether a line with a sentence follows the code of a fault.
#[derive(Clone, Copy, PartialEq, Eq)]
pub enum Details {
    /// The sentence follows.
    Shown,
    /// The code is alone, for scripts.
    Hidden,
}
