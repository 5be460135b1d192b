//! Paths to the values of a TOML document.

/// A step from a table to a value at its key, or from a list to one of its elements.
#[derive(Clone, Copy)]
pub enum Step<'a> {
    /// The value at the key.
    Key(&'a str),
    /// The element with this index.
    Index(usize),
}

/// The most steps of a path: a node, an interface, a key and an element.
pub(crate) const MAX_STEPS: usize = 6;

/// The steps from the table of a document to a value. A step for which there is no room is left
/// out; no path has so many.
#[derive(Clone, Copy)]
pub struct Path<'a> {
    steps: [Step<'a>; MAX_STEPS],
    len: usize,
}

impl<'a> Path<'a> {
    /// The table of the document itself.
    pub fn new() -> Path<'a> {
        Path {
            steps: [Step::Index(0); MAX_STEPS],
            len: 0,
        }
    }

    /// Appends a step.
    pub fn push(&mut self, step: Step<'a>) {
        let len = self.len;
        if let Some(place) = self.steps.get_mut(len) {
            *place = step;
            self.len = len.saturating_add(1);
        }
    }

    /// Appends the steps to an element of the list at a key.
    pub fn push_element(&mut self, list: &'a str, index: usize) {
        self.push(Step::Key(list));
        self.push(Step::Index(index));
    }

    /// The steps in order.
    pub fn steps(&self) -> &[Step<'a>] {
        &self.steps[..self.len.min(MAX_STEPS)]
    }
}
