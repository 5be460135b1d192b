//! The words of a line, which one blank separates.

use babel_text::parse_u64;

/// The words of a line that aren't taken yet. A line that lacks a word that it must have is of no
/// known form: that is asked once at the end, by [`Words::is_end`].
#[derive(Clone, Copy)]
pub(crate) struct Words<'a> {
    rest: Option<&'a str>,
    /// Whether a word that the line must have was missing, or another one.
    is_other: bool,
}

impl<'a> Words<'a> {
    /// All words of the line.
    pub(crate) fn new(line: &'a str) -> Words<'a> {
        Words {
            rest: Some(line),
            is_other: false,
        }
    }

    /// Takes the next word, if there is one.
    pub(crate) fn optional_word(&mut self) -> Option<&'a str> {
        let rest = self.rest?;
        match rest.split_once(' ') {
            Some((word, rest)) => {
                self.rest = Some(rest);
                Some(word)
            }
            None => {
                self.rest = None;
                Some(rest)
            }
        }
    }

    /// Takes the next word, which the line must have.
    pub(crate) fn word(&mut self) -> &'a str {
        match self.optional_word() {
            Some(word) => word,
            None => {
                self.is_other = true;
                ""
            }
        }
    }

    /// Takes the next word, which must be a number.
    pub(crate) fn number(&mut self) -> u64 {
        match parse_u64(self.word()) {
            Some(number) => number,
            None => {
                self.is_other = true;
                0
            }
        }
    }

    /// Takes the next word, which must be this one.
    pub(crate) fn expect(&mut self, expected: &str) {
        if self.word() != expected {
            self.is_other = true;
        }
    }

    /// Takes the next word if it is a number.
    pub(crate) fn optional_number(&mut self) -> Option<u64> {
        let number = self.peek_number()?;
        let _ = self.optional_word();
        Some(number)
    }

    /// The next word, which isn't taken, if it is a number.
    pub(crate) fn peek_number(&self) -> Option<u64> {
        parse_u64(self.peek()?)
    }

    /// The next word, which isn't taken.
    pub(crate) fn peek(&self) -> Option<&'a str> {
        let mut words = *self;
        words.optional_word()
    }

    /// Takes the next word if it is this one.
    pub(crate) fn skip(&mut self, expected: &str) -> bool {
        if self.peek() == Some(expected) {
            let _ = self.optional_word();
            return true;
        }
        false
    }

    /// Whether all words were taken, and the line had those that it must have.
    pub(crate) fn is_end(&self) -> bool {
        !self.is_other && self.rest.is_none()
    }
}
