//! File, line and column, with which a sentence begins.

use babel_text::parse_u64;

/// A sentence, and the place that it is about.
#[derive(Clone, Copy)]
pub(crate) struct Sentence<'a> {
    pub(crate) file: Option<&'a str>,
    pub(crate) line: Option<u64>,
    pub(crate) column: Option<u64>,
    pub(crate) message: &'a str,
}

impl<'a> Sentence<'a> {
    /// Reads `<file>:<line>:<column>: <message>`, of which the column and the line may be missing.
    /// The file is one of these; without one the whole text is the message.
    pub(crate) fn read(text: &'a str, files: &[&str]) -> Sentence<'a> {
        for file in files {
            if let Some(rest) = text.strip_prefix(*file) {
                if !file.is_empty() && rest.starts_with(':') {
                    return Sentence::after_file(text.strip_suffix(rest), rest);
                }
            }
        }
        Sentence {
            file: None,
            line: None,
            column: None,
            message: text,
        }
    }

    fn after_file(file: Option<&'a str>, rest: &'a str) -> Sentence<'a> {
        let (line, rest) = number_in(rest);
        let (column, rest) = match line {
            Some(_) => number_in(rest),
            None => (None, rest),
        };
        let rest = rest.strip_prefix(':').unwrap_or(rest);
        Sentence {
            file,
            line,
            column,
            message: rest.strip_prefix(' ').unwrap_or(rest),
        }
    }
}

/// The number after a colon, and what follows it.
fn number_in(rest: &str) -> (Option<u64>, &str) {
    let Some(text) = rest.strip_prefix(':') else {
        return (None, rest);
    };
    let end = text.find(':').unwrap_or(text.len());
    let (digits, after) = text.split_at(end);
    match parse_u64(digits) {
        Some(number) => (Some(number), after),
        None => (None, rest),
    }
}
