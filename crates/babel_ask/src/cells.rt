//! What a table shows of a line.

use crate::columns::{Column, ColumnKind};
use crate::fields::{field, word};
use std::fmt;

/// What is shown of a field.
#[derive(Clone, Copy)]
pub(crate) enum Cell<'l> {
    /// The field itself.
    Text(&'l str),
    /// So many centiseconds, shown as seconds.
    Centiseconds(u64),
}

/// The cell of a line in a column. A cost of 65535 is infinite.
pub(crate) fn cell_of<'l>(answer: &'l str, line: &'l str, column: &Column) -> Cell<'l> {
    match (column.kind, field(line, column.field)) {
        (ColumnKind::Expiry, _) => match expiry_of(answer, line) {
            Some(rest) => Cell::Centiseconds(rest),
            None => Cell::Text("-"),
        },
        (ColumnKind::Number, "65535") => Cell::Text("infinite"),
        (_, "") => Cell::Text("-"),
        (_, text) => Cell::Text(text),
    }
}

/// After how many centiseconds the neighbour or the route of the line is given up, if a line of the
/// reply has that.
pub(crate) fn expiry_of(answer: &str, line: &str) -> Option<u64> {
    for other in answer.lines() {
        if word(other, 0) == "expires" && is_same_thing(other, line) {
            return field(other, "in").parse::<u64>().ok();
        }
    }
    None
}

/// The fields by which neighbours, and routes, differ from each other.
static NAMING_FIELDS: [&str; 4] = ["if", "address", "via", "prefix"];

/// Whether both lines are of one neighbour, or of one route.
fn is_same_thing(one: &str, other: &str) -> bool {
    for name in NAMING_FIELDS.iter() {
        if field(one, name) != field(other, name) {
            return false;
        }
    }
    word(one, 1) == word(other, 1)
}

impl Cell<'_> {
    /// How many columns of the screen it takes.
    pub(crate) fn width(&self) -> usize {
        match *self {
            Cell::Text(text) => text.len(),
            // The point, a digit, a blank and the unit.
            Cell::Centiseconds(rest) => digits_of(rest / 100).saturating_add(4),
        }
    }
}

/// How many digits a number has.
fn digits_of(number: u64) -> usize {
    let mut rest = number;
    for count in 1..20 {
        rest /= 10;
        if rest == 0 {
            return count;
        }
    }
    20
}

impl fmt::Display for Cell<'_> {
    fn fmt<W: fmt::Write>(&self, f: &mut fmt::Formatter<W>) -> fmt::Result {
        match *self {
            Cell::Text(text) => f.write_str(text),
            Cell::Centiseconds(rest) => {
                let seconds = rest / 100;
                let tenths = rest / 10 % 10;
                write!(f, "{seconds}.{tenths} s")
            }
        }
    }
}
