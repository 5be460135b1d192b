//! The codes of a report that were explained.

use crate::ReportCode;

/// A set of codes, a bit for each.
#[derive(Clone, Copy)]
pub struct SeenCodes(u64);

impl SeenCodes {
    /// No code.
    pub fn new() -> SeenCodes {
        SeenCodes(0)
    }

    /// Adds the code. Returns whether it is new.
    pub fn add(&mut self, code: ReportCode) -> bool {
        let bit = 1u64.wrapping_shl(code as u32);
        let is_new = self.0 & bit == 0;
        self.0 |= bit;
        is_new
    }
}
