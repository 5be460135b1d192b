//! Texts of a file, as they are shown.

use std::fmt;

/// The most characters of a text that are shown.
const MAX_SHOWN: usize = 40;

/// A text in quotation marks. A long one is cut, and control characters are escaped, since a
/// terminal would obey them.
#[derive(Clone, Copy)]
pub struct Excerpt<'a>(pub &'a str);

impl fmt::Display for Excerpt<'_> {
    fn fmt<W: fmt::Write>(&self, f: &mut fmt::Formatter<W>) -> fmt::Result {
        f.write_str("\"")?;
        for (index, letter) in self.0.chars().enumerate() {
            if index >= MAX_SHOWN {
                return f.write_str("..\"");
            }
            write_letter(letter, f)?;
        }
        f.write_str("\"")
    }
}

fn write_letter<W: fmt::Write>(letter: char, f: &mut fmt::Formatter<W>) -> fmt::Result {
    if letter.is_control() {
        f.write(letter.escape_unicode())
    } else {
        f.write_char(letter)
    }
}
