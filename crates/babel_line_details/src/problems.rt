//! What is wrong with a line, as a sentence.

use crate::Excerpt;
use std::fmt;

/// A field of a log's line that is a number.
#[derive(Clone, Copy)]
pub enum NumberField {
    /// The moment, in centiseconds.
    Time,
    /// The number of the interface.
    Interface,
    /// The cost of the interface.
    Cost,
}

/// Why a text isn't octets in hexadecimal.
#[derive(Clone, Copy)]
pub enum HexProblem {
    /// There are no digits.
    Empty,
    /// The first character that is no digit.
    NotADigit(char),
    /// The last octet has one digit.
    OddDigits(usize),
    /// There are more octets than a line has room for.
    TooMany,
}

/// What is wrong with a line.
#[derive(Clone, Copy)]
pub enum LineProblem<'a> {
    /// The line's last character is a carriage return.
    CarriageReturn,
    /// The line begins with a byte order mark, which is not seen.
    ByteOrderMark,
    /// The line isn't UTF-8.
    NotText,
    /// The log's line has none of the forms.
    Form(&'a str),
    /// The field isn't a number, or is too large.
    Number(NumberField, &'a str),
    /// The text isn't an address.
    Address(&'a str),
    /// The text isn't octets in hexadecimal.
    Hex(HexProblem, &'a str),
    /// The line is longer than 131,200 octets.
    TooLong,
    /// Reading failed.
    Read,
    /// Writing failed.
    Write,
    /// Nobody reads the output any more.
    BrokenPipe,
    /// An allocation failed.
    Memory,
}

impl fmt::Display for LineProblem<'_> {
    fn fmt<W: fmt::Write>(&self, f: &mut fmt::Formatter<W>) -> fmt::Result {
        f.write_str(match *self {
            LineProblem::Form(line) => return write_form(line, f),
            LineProblem::Number(field, text) => return write_number(field, text, f),
            LineProblem::Address(text) => return write_address(text, f),
            LineProblem::Hex(problem, text) => return write_hex(problem, text, f),
            LineProblem::CarriageReturn => {
                "the line ends in a carriage return; end each line with a line feed alone"
            }
            LineProblem::ByteOrderMark => {
                "the line begins with a byte order mark (U+FEFF); write the file without one"
            }
            LineProblem::NotText => "the line is not UTF-8",
            LineProblem::TooLong => "the line has more than 131200 octets",
            LineProblem::Read => "the input can't be read any further",
            LineProblem::Write => {
                "the output can't be written; look for a full disk or a closed output"
            }
            LineProblem::BrokenPipe => "nobody reads the output any more (broken pipe)",
            LineProblem::Memory => "out of memory; give the process more of it",
        })
    }
}

fn write_form<W: fmt::Write>(line: &str, f: &mut fmt::Formatter<W>) -> fmt::Result {
    write!(
        f,
        "{} has none of the forms '<time> in <iface> <source> <hex>', '<time> tick' and '<time> cost <iface> <n>'",
        Excerpt(line)
    )
}

fn write_number<W: fmt::Write>(
    field: NumberField,
    text: &str,
    f: &mut fmt::Formatter<W>,
) -> fmt::Result {
    let (name, greatest) = match field {
        NumberField::Time => ("time", u64::MAX),
        NumberField::Interface => ("interface", 65535),
        NumberField::Cost => ("cost", 65535),
    };
    write!(
        f,
        "{name} {} is not a number from 0 to {greatest}, without sign or leading zeros",
        Excerpt(text)
    )
}

fn write_address<W: fmt::Write>(text: &str, f: &mut fmt::Formatter<W>) -> fmt::Result {
    let advice = if text.contains('%') {
        "; leave the zone out"
    } else {
        ""
    };
    write!(
        f,
        "source {} is not an address, as 192.168.0.1 or fe80::1{advice}",
        Excerpt(text)
    )
}

fn write_hex<W: fmt::Write>(
    problem: HexProblem,
    text: &str,
    f: &mut fmt::Formatter<W>,
) -> fmt::Result {
    match problem {
        HexProblem::Empty => f.write_str("the octets are missing; write - for none"),
        HexProblem::NotADigit(letter) => {
            let mut room = [0; 4];
            write!(
                f,
                "{} is not a hexadecimal digit, in {}",
                Excerpt(letter.encode_utf8(&mut room)),
                Excerpt(text)
            )
        }
        HexProblem::OddDigits(count) => write!(
            f,
            "{} has {count} hexadecimal digits, and each octet has two",
            Excerpt(text)
        ),
        HexProblem::TooMany => f.write_str("there are more octets than a datagram can have"),
    }
}

/// What is wrong with a line of text by signs that are not seen: what it begins and ends with.
pub(crate) fn unseen_problem(text: &str) -> Option<LineDetail<'_>> {
    if text.starts_with('\u{feff}') {
        return Some(LineDetail::of_line(LineProblem::ByteOrderMark));
    }
    if text.ends_with('\r') {
        return Some(LineDetail::of_line(LineProblem::CarriageReturn));
    }
    None
}

/// What is wrong with a line, and in which column.
#[derive(Clone, Copy)]
pub struct LineDetail<'a> {
    /// The column of the field, from 1 on, in characters. The whole line has none.
    pub column: Option<usize>,
    /// What is wrong.
    pub problem: LineProblem<'a>,
}

impl<'a> LineDetail<'a> {
    /// A problem of the whole line.
    pub(crate) fn of_line(problem: LineProblem<'a>) -> LineDetail<'a> {
        LineDetail {
            column: None,
            problem,
        }
    }

    /// A problem of the field with which `rest` begins. `rest` is the end of `line`.
    pub(crate) fn of_field(line: &str, rest: &str, problem: LineProblem<'a>) -> LineDetail<'a> {
        let before = line.chars().count().saturating_sub(rest.chars().count());
        LineDetail {
            column: Some(before.saturating_add(1)),
            problem,
        }
    }
}

/// What follows the number of the line: `:column: sentence`, or `: sentence`.
impl fmt::Display for LineDetail<'_> {
    fn fmt<W: fmt::Write>(&self, f: &mut fmt::Formatter<W>) -> fmt::Result {
        match self.column {
            Some(column) => write!(f, ":{column}: {}", self.problem),
            None => write!(f, ": {}", self.problem),
        }
    }
}
