//! Tables for people.

use crate::cells::{Cell, cell_of};
use crate::columns::{COLUMNS, Column, ColumnKind};
use crate::fields::{field, is_of};
use std::io::{self, Write};

/// Whether a table has colours.
#[derive(Clone, Copy)]
pub(crate) enum Colours {
    /// The head is bold, a row that is used is green, and one that can't be used is red.
    Shown,
    /// It has none.
    Hidden,
}

/// The sequences of a terminal (ECMA-48, section 8.3.117).
const BOLD: &str = "\x1b[1m";

const GREEN: &str = "\x1b[32m";

const RED: &str = "\x1b[31m";

const PLAIN: &str = "\x1b[0m";

/// The lines of a table, and how wide its columns are.
#[derive(Clone, Copy)]
struct Table<'t> {
    answer: &'t str,
    columns: &'t [Column; COLUMNS],
    widths: [usize; COLUMNS],
    colours: Colours,
}

/// A row of a table.
#[derive(Clone, Copy)]
enum Row<'t> {
    /// The heads of the columns.
    Head,
    /// A line of the reply.
    Line(&'t str),
}

/// Writes a table of the lines of this kind: its head, and a row for each.
pub(crate) fn write_table<W: Write>(
    answer: &str,
    kind: &str,
    columns: &[Column; COLUMNS],
    colours: Colours,
    out: &mut W,
) -> io::Result<()> {
    let widths = widths_of(answer, kind, columns);
    let table = Table {
        answer,
        columns,
        widths,
        colours,
    };
    write_row(&table, Row::Head, out)?;
    for line in answer.lines() {
        if is_of(line, kind) {
            write_row(&table, Row::Line(line), out)?;
        }
    }
    Ok(())
}

/// How wide each column is.
fn widths_of(answer: &str, kind: &str, columns: &[Column; COLUMNS]) -> [usize; COLUMNS] {
    let mut widths = [0usize; COLUMNS];
    for number in 0..COLUMNS {
        widths[number] = width_of(answer, kind, &columns[number]);
    }
    widths
}

fn width_of(answer: &str, kind: &str, column: &Column) -> usize {
    let mut width = column.head.len();
    for line in answer.lines() {
        if is_of(line, kind) {
            width = width.max(cell_of(answer, line, column).width());
        }
    }
    width
}

fn write_row<'t, W: Write>(table: &Table<'t>, row: Row<'t>, out: &mut W) -> io::Result<()> {
    let (begin, end) = match (table.colours, colour_of(row)) {
        (Colours::Shown, Some(colour)) => (colour, PLAIN),
        _ => ("", ""),
    };
    write!(out, "{begin}")?;
    let mut gap = 0;
    for number in 0..COLUMNS {
        let column = &table.columns[number];
        let cell = match row {
            Row::Head => Cell::Text(column.head),
            Row::Line(line) => cell_of(table.answer, line, column),
        };
        gap = write_cell(cell, column.kind, table.widths[number], gap, out)?;
    }
    writeln!(out, "{end}")
}

/// The colour of a row: that of the head, of the selected route, or of a thing that can't be used.
fn colour_of(row: Row<'_>) -> Option<&'static str> {
    let Row::Line(line) = row else {
        return Some(BOLD);
    };
    match (
        field(line, "installed"),
        field(line, "cost"),
        field(line, "metric"),
    ) {
        ("yes", _, _) => Some(GREEN),
        (_, "65535", _) | (_, _, "65535") => Some(RED),
        _ => None,
    }
}

/// Writes a cell after the gap, and returns how many blanks come before the next one. Numbers and
/// times are at the right of it.
fn write_cell<W: Write>(
    cell: Cell<'_>,
    kind: ColumnKind,
    width: usize,
    gap: usize,
    out: &mut W,
) -> io::Result<usize> {
    let blanks = width.saturating_sub(cell.width());
    let (before, after) = match kind {
        ColumnKind::Text => (gap, blanks.saturating_add(2)),
        _ => (gap.saturating_add(blanks), 2),
    };
    write!(out, "{:before$}{cell}", "")?;
    Ok(after)
}
