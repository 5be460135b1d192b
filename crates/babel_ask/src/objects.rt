//! JSON objects, one a line.

use crate::cells::expiry_of;
use crate::columns::{COLUMNS, Column, ColumnKind};
use crate::fields::{field, is_of};
use babel_value::Addr;
use std::fmt;
use std::io::{self, Write};
use std::net::Ipv6Addr;

/// A text as a string of JSON (RFC 8259, section 7).
#[derive(Clone, Copy)]
pub(crate) struct Quoted<'t>(pub(crate) &'t str);

impl fmt::Display for Quoted<'_> {
    fn fmt<W: fmt::Write>(&self, f: &mut fmt::Formatter<W>) -> fmt::Result {
        f.write_str("\"")?;
        for letter in self.0.chars() {
            write_letter(letter, f)?;
        }
        f.write_str("\"")
    }
}

/// Writes a letter of a string, with a backslash before it if it needs one.
fn write_letter<W: fmt::Write>(letter: char, f: &mut fmt::Formatter<W>) -> fmt::Result {
    match letter {
        '"' => f.write_str("\\\""),
        '\\' => f.write_str("\\\\"),
        '\0'..' ' => write!(f, "\\u{:04x}", u32::from(letter)),
        _ => f.write_char(letter),
    }
}

/// An address as the lines of `explain` write it. One of IPv6 is shown in its short form (RFC
/// 5952).
#[derive(Clone, Copy)]
pub(crate) struct ShortAddress<'l>(pub(crate) &'l str);

impl fmt::Display for ShortAddress<'_> {
    fn fmt<W: fmt::Write>(&self, f: &mut fmt::Formatter<W>) -> fmt::Result {
        match Addr::parse_ascii(self.0.as_bytes()) {
            Ok(Addr::V6(octets)) => Ipv6Addr::from_octets(octets).fmt(f),
            _ => f.write_str(self.0),
        }
    }
}

/// Writes an object for each line of this kind.
pub(crate) fn write_objects<W: Write>(
    answer: &str,
    kind: &str,
    columns: &[Column; COLUMNS],
    out: &mut W,
) -> io::Result<()> {
    for line in answer.lines() {
        if is_of(line, kind) {
            write_object(answer, line, columns, out)?;
        }
    }
    Ok(())
}

fn write_object<W: Write>(
    answer: &str,
    line: &str,
    columns: &[Column; COLUMNS],
    out: &mut W,
) -> io::Result<()> {
    let mut mark = "{";
    for column in columns {
        let key = column.key;
        let value = value_of(answer, line, column);
        write!(out, "{mark}\"{key}\":{value}")?;
        mark = ",";
    }
    writeln!(out, "}}")
}

/// Writes the object of these members.
pub(crate) fn write_members<W: Write>(
    members: &[(&str, Value<'_>)],
    out: &mut W,
) -> io::Result<()> {
    let mut mark = "{";
    for (key, value) in members {
        write!(out, "{mark}\"{key}\":{value}")?;
        mark = ",";
    }
    writeln!(out, "}}")
}

/// A value of a member.
#[derive(Clone, Copy)]
pub(crate) enum Value<'l> {
    Text(&'l str),
    Address(&'l str),
    Number(u64),
    Null,
}

impl<'l> Value<'l> {
    /// A number. What should be one and isn't is a string.
    pub(crate) fn number(text: &'l str) -> Value<'l> {
        match text.parse::<u64>() {
            Ok(number) => Value::Number(number),
            Err(_) => Value::Text(text),
        }
    }
}

impl fmt::Display for Value<'_> {
    fn fmt<W: fmt::Write>(&self, f: &mut fmt::Formatter<W>) -> fmt::Result {
        match *self {
            Value::Text(text) => Quoted(text).fmt(f),
            Value::Address(text) => {
                let address = ShortAddress(text);
                write!(f, "\"{address}\"")
            }
            Value::Number(number) => number.fmt(f),
            Value::Null => f.write_str("null"),
        }
    }
}

/// The value of a line in a column. A time is in centiseconds.
fn value_of<'l>(answer: &'l str, line: &'l str, column: &Column) -> Value<'l> {
    let text = field(line, column.field);
    match column.kind {
        ColumnKind::Text => Value::Text(text),
        ColumnKind::Number => Value::number(text),
        ColumnKind::Expiry => match expiry_of(answer, line) {
            Some(rest) => Value::Number(rest),
            None => Value::Null,
        },
    }
}
