//! Sentences as data: a text with gaps, and the words that fill them.
//!
//! Each function that finds a fault has its sentence, and one function here writes them all.

use crate::locations::Owner;
use crate::rules::{TableKind, ValueKind};
use babel_line_details::Excerpt;
use babel_value::{Addr, Prefix};
use std::fmt::{self, Display};

/// A sentence.
#[derive(Clone, Copy)]
pub(crate) struct Sentence<'a> {
    /// The text, with `{}` for each gap.
    pub(crate) text: &'static str,
    /// What fills the gaps, in order. Those past the last gap are empty.
    pub(crate) words: [Word<'a>; 3],
}

impl<'a> Sentence<'a> {
    /// An allocation failed.
    pub(crate) fn memory() -> Sentence<'a> {
        Sentence {
            text: "out of memory; give the process more of it",
            words: [Word::Empty; 3],
        }
    }
}

impl fmt::Display for Sentence<'_> {
    fn fmt<W: fmt::Write>(&self, f: &mut fmt::Formatter<W>) -> fmt::Result {
        let mut rest = self.text;
        for word in self.words.iter() {
            if let Some((before, after)) = rest.split_once("{}") {
                write!(f, "{before}{word}")?;
                rest = after;
            }
        }
        f.write_str(rest)
    }
}

/// What fills a gap of a sentence.
#[derive(Clone, Copy)]
pub(crate) enum Word<'a> {
    /// Nothing.
    Empty,
    /// A text as it is.
    Text(&'a str),
    /// The beginning of a text, in quotation marks.
    Excerpt(&'a str),
    Number(i64),
    Count(usize),
    /// A range of numbers.
    Limits(u16, u16),
    Addr(Addr),
    /// An address, and the length of a prefix.
    Network(Addr, u8),
    /// A table as the subject of a sentence.
    Owner(Owner),
    /// What a value must be.
    Kind(ValueKind),
    /// What a value in the file of a router must be.
    RouterKind(babel_router_file::Kind),
    /// What a value in the file of a topology must be.
    TopologyKind(babel_topology::file::Kind),
    /// The keys that a table may have.
    Keys(TableKind),
}

impl Word<'_> {
    /// A prefix.
    pub(crate) fn prefix(prefix: &Prefix) -> Word<'static> {
        Word::Network(prefix.addr(), prefix.length())
    }
}

impl fmt::Display for Word<'_> {
    fn fmt<W: fmt::Write>(&self, f: &mut fmt::Formatter<W>) -> fmt::Result {
        match *self {
            Word::Empty => Ok(()),
            Word::Text(text) => f.write_str(text),
            Word::Excerpt(text) => Excerpt(text).fmt(f),
            Word::Number(number) => number.fmt(f),
            Word::Count(count) => count.fmt(f),
            Word::Limits(least, greatest) => write!(f, "{least} to {greatest}"),
            Word::Addr(addr) => addr.fmt(f),
            Word::Network(addr, length) => write!(f, "{addr}/{length}"),
            Word::Owner(owner) => owner.fmt(f),
            Word::Kind(kind) => kind.fmt(f),
            Word::RouterKind(kind) => kind.fmt(f),
            Word::TopologyKind(kind) => kind.fmt(f),
            Word::Keys(kind) => write_keys(kind, f),
        }
    }
}

fn write_keys<W: fmt::Write>(kind: TableKind, f: &mut fmt::Formatter<W>) -> fmt::Result {
    for (index, rule) in kind.rules().iter().enumerate() {
        if index > 0 {
            f.write_str(", ")?;
        }
        f.write_str(rule.key)?;
    }
    Ok(())
}
