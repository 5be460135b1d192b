//! A problem of a file, with where it is.

use crate::locations::{Location, Owner};
use crate::sentences::{Sentence, Word};
use babel_line_details::Excerpt;
use std::fmt::{self, Display};

/// A problem, and where in the file it is.
#[derive(Clone, Copy)]
pub(crate) struct Finding<'a> {
    pub(crate) at: Location<'a>,
    /// The number and the text of the event that the problem is about.
    pub(crate) event: Option<(usize, &'a str)>,
    pub(crate) problem: Sentence<'a>,
}

impl<'a> Finding<'a> {
    /// A problem that is about no event.
    pub(crate) fn new(at: Location<'a>, text: &'static str, words: [Word<'a>; 3]) -> Finding<'a> {
        Finding {
            at,
            event: None,
            problem: Sentence { text, words },
        }
    }

    /// An allocation failed.
    pub(crate) fn memory() -> Finding<'a> {
        Finding {
            at: Owner::FILE.table(),
            event: None,
            problem: Sentence::memory(),
        }
    }

    /// The number at a key isn't in the range from the first to the second.
    pub(crate) fn out_of_range(
        at: Location<'a>,
        key: &'a str,
        number: i64,
        limits: (u16, u16),
    ) -> Finding<'a> {
        let (least, greatest) = limits;
        let words = [
            Word::Text(key),
            Word::Number(number),
            Word::Limits(least, greatest),
        ];
        Finding::new(at, "{} = {} is not in {}", words)
    }
}

/// The sentence.
impl fmt::Display for Finding<'_> {
    fn fmt<W: fmt::Write>(&self, f: &mut fmt::Formatter<W>) -> fmt::Result {
        if let Some((number, text)) = self.event {
            write!(f, "event {number}, {}: ", Excerpt(text))?;
        }
        self.problem.fmt(f)
    }
}
