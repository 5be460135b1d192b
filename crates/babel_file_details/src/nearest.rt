//! The name that was meant.

use std::alloc::Global;
use strsim::osa_distance;

/// The longest text for which a near name is looked for.
const MAX_LEN: usize = 40;

/// The most edits that lead from a text to a near name.
const MAX_EDITS: usize = 2;

/// The name to which the fewest edits lead from a text, if they are few.
#[derive(Clone, Copy)]
pub(crate) struct Nearest<'a> {
    text: &'a str,
    edits: usize,
    pub(crate) found: Option<&'static str>,
}

impl<'a> Nearest<'a> {
    /// No name yet.
    pub(crate) fn to(text: &'a str) -> Nearest<'a> {
        Nearest {
            text,
            edits: MAX_EDITS + 1,
            found: None,
        }
    }

    /// Takes the name if it is nearer than those before.
    pub(crate) fn take(&mut self, alloc: Global, name: &'static str) {
        if self.text.len() > MAX_LEN {
            return;
        }
        if let Ok(edits) = osa_distance(alloc, self.text, name) {
            if edits < self.edits && edits < name.len() {
                self.edits = edits;
                self.found = Some(name);
            }
        }
    }
}
