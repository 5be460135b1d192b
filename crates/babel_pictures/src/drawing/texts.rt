//! Texts as a picture has them.

use std::fmt::{self, Write};

/// The most characters of a name that are drawn.
pub(crate) const MAX_NAME_LEN: usize = 14;

/// A text in XML: what would be read as markup is escaped, and what XML can't have is replaced.
#[derive(Clone, Copy)]
pub(crate) struct Escaped<'a>(pub(crate) &'a str);

impl fmt::Display for Escaped<'_> {
    fn fmt<W: fmt::Write>(&self, f: &mut fmt::Formatter<W>) -> fmt::Result {
        for c in self.0.chars() {
            write_escaped(c, f)?;
        }
        Ok(())
    }
}

fn write_escaped<W: fmt::Write>(c: char, f: &mut fmt::Formatter<W>) -> fmt::Result {
    match c {
        '&' => f.write_str("&amp;"),
        '<' => f.write_str("&lt;"),
        '>' => f.write_str("&gt;"),
        '"' => f.write_str("&quot;"),
        '\t' => f.write_char(' '),
        _ if is_unwritable(c) => f.write_char('\u{fffd}'),
        _ => f.write_char(c),
    }
}

/// Whether XML 1.0 can't have the character.
fn is_unwritable(c: char) -> bool {
    c < ' ' || ('\u{7f}'..='\u{9f}').contains(&c) || c == '\u{fffe}' || c == '\u{ffff}'
}

/// A name in XML that is cut off if it is long.
#[derive(Clone, Copy)]
pub(crate) struct Short<'a>(pub(crate) &'a str);

impl fmt::Display for Short<'_> {
    fn fmt<W: fmt::Write>(&self, f: &mut fmt::Formatter<W>) -> fmt::Result {
        let is_cut = self.0.chars().count() > MAX_NAME_LEN;
        let most = if is_cut {
            MAX_NAME_LEN - 1
        } else {
            MAX_NAME_LEN
        };
        for c in self.0.chars().take(most) {
            write_escaped(c, f)?;
        }
        if is_cut { f.write_char('…') } else { Ok(()) }
    }
}

/// How many characters of a name are drawn.
pub(crate) fn drawn_len(name: &str) -> usize {
    name.chars().count().min(MAX_NAME_LEN)
}

/// The most characters of a prefix.
const MAX_PREFIX_LEN: usize = 43;

/// Whether a word of a step is a prefix, which is drawn whole. A name may have a slash too.
fn is_whole(word: &str) -> bool {
    word.contains('/') && word.chars().count() <= MAX_PREFIX_LEN
}

/// The text of a step in XML. Its words are names, two of them with a dash between for a link, and
/// the long ones are cut off.
#[derive(Clone, Copy)]
pub(crate) struct ShortNames<'a>(pub(crate) &'a str);

impl fmt::Display for ShortNames<'_> {
    fn fmt<W: fmt::Write>(&self, f: &mut fmt::Formatter<W>) -> fmt::Result {
        for (index, word) in self.0.split(' ').enumerate() {
            if index > 0 {
                f.write_char(' ')?;
            }
            write_word(word, f)?;
        }
        Ok(())
    }
}

fn write_word<W: fmt::Write>(word: &str, f: &mut fmt::Formatter<W>) -> fmt::Result {
    if is_whole(word) {
        return write!(f, "{}", Escaped(word));
    }
    match word.split_once('-') {
        Some((a, b)) => write!(f, "{}-{}", Short(a), Short(b)),
        None => write!(f, "{}", Short(word)),
    }
}

/// How many characters of the text of a step are drawn.
pub(crate) fn short_names_len(text: &str) -> usize {
    let mut length = 0usize;
    for word in text.split(' ') {
        length = length.saturating_add(word_len(word)).saturating_add(1);
    }
    length.saturating_sub(1)
}

fn word_len(word: &str) -> usize {
    if is_whole(word) {
        return word.chars().count();
    }
    match word.split_once('-') {
        Some((a, b)) => drawn_len(a).saturating_add(drawn_len(b)).saturating_add(1),
        None => drawn_len(word),
    }
}

/// A text between quotation marks of DOT.
#[derive(Clone, Copy)]
pub(crate) struct Quoted<'a>(pub(crate) &'a str);

impl fmt::Display for Quoted<'_> {
    fn fmt<W: fmt::Write>(&self, f: &mut fmt::Formatter<W>) -> fmt::Result {
        f.write_char('"')?;
        for c in self.0.chars() {
            if c == '"' || c == '\\' {
                f.write_char('\\')?;
            }
            f.write_char(if c < ' ' { ' ' } else { c })?;
        }
        f.write_char('"')
    }
}

/// A time as seconds with a fraction, without zeros at its end, and the unit.
#[derive(Clone, Copy)]
pub(crate) struct Seconds(pub(crate) u64);

impl fmt::Display for Seconds {
    fn fmt<W: fmt::Write>(&self, f: &mut fmt::Formatter<W>) -> fmt::Result {
        let whole = self.0 / 100;
        let tenths = self.0 / 10 % 10;
        let hundredths = self.0 % 10;
        if hundredths != 0 {
            write!(f, "{whole}.{tenths}{hundredths} s")
        } else if tenths != 0 {
            write!(f, "{whole}.{tenths} s")
        } else {
            write!(f, "{whole} s")
        }
    }
}

/// How many characters [`Seconds`] has.
pub(crate) fn seconds_len(centiseconds: u64) -> i64 {
    let mut rest = centiseconds / 1000;
    let mut length = 3i64;
    for _digit in 0..20 {
        if rest == 0 {
            break;
        }
        rest /= 10;
        length = length.saturating_add(1);
    }
    match (centiseconds / 10 % 10, centiseconds % 10) {
        (0, 0) => length,
        (_, 0) => length.saturating_add(2),
        _ => length.saturating_add(3),
    }
}
