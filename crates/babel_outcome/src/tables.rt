//! Tables whose columns are aligned.

use std::alloc::{AllocError, Global};
use std::fmt;
use std::io::{self, Write};

/// On which side of its column a text is.
#[derive(Clone, Copy)]
pub(crate) enum Side {
    /// On the left, as names.
    Left,
    /// On the right, as numbers.
    Right,
}

/// A column: the side of its texts, and its head.
pub(crate) type Column = (Side, &'static str);

/// The most columns of a table.
const MAX_COLUMNS: usize = 8;

/// A table.
#[derive(Drop)]
pub(crate) struct Table<'a> {
    alloc: Global,
    columns: &'a [Column],
    /// The heads, and then the rows.
    cells: Vec<String>,
    /// How wide each column is so far.
    widths: [usize; MAX_COLUMNS],
    /// The index of the column of the next cell.
    next: usize,
    /// Whether an allocation failed.
    stored: Result<(), AllocError>,
}

impl<'a> Table<'a> {
    /// A table without rows.
    pub(crate) fn new(alloc: Global, columns: &'a [Column]) -> Table<'a> {
        let mut table = Table {
            alloc,
            columns,
            cells: Vec::new(alloc),
            widths: [0; MAX_COLUMNS],
            next: 0,
            stored: Ok(()),
        };
        for (_, head) in columns {
            table.push(*head);
        }
        table
    }

    /// Adds the next cell of the row; after the last one the next row begins. If an allocation
    /// fails, `write` reports it.
    pub(crate) fn push<T: fmt::Display + Drop>(&mut self, cell: T) {
        match cell.to_string(self.alloc) {
            Ok(text) => self.store(text),
            Err(error) => self.stored = Err(error),
        }
    }

    fn store(&mut self, text: String) {
        let place = self.next;
        if let Some(width) = self.widths.get_mut(place) {
            *width = (*width).max(text.chars().count());
        }
        self.next = self.after(place);
        if self.cells.push(text).is_err() {
            self.stored = Err(AllocError);
        }
    }

    /// Whether there are no rows. A table whose cells could not be stored isn't empty.
    pub(crate) fn is_empty(&self) -> bool {
        self.stored.is_ok() && self.cells.len() <= self.columns.len()
    }

    /// The index of the column after this one.
    fn after(&self, place: usize) -> usize {
        let next = place.saturating_add(1);
        if next < self.columns.len() { next } else { 0 }
    }

    /// Writes the heads and the rows, with a title above them.
    ///
    /// # Errors
    ///
    /// Those of `out`, and `OutOfMemory` if a cell could not be stored.
    pub(crate) fn write<W: Write>(&self, title: &str, out: &mut W) -> io::Result<()> {
        self.stored?;
        writeln!(out, "\n{title}:")?;
        let mut place = 0;
        for cell in &self.cells {
            self.write_cell(place, cell, out)?;
            place = self.after(place);
        }
        Ok(())
    }

    /// Writes the text in its column. After the last column the line ends.
    fn write_cell<W: Write>(&self, place: usize, text: &str, out: &mut W) -> io::Result<()> {
        let width = self.widths.get(place).copied().unwrap_or(0);
        let spaces = width.saturating_sub(text.chars().count());
        let is_last = self.after(place) == 0;
        let (left, right) = match self.columns.get(place) {
            Some((Side::Right, _)) => (spaces, 0),
            _ if is_last => (0, 0),
            _ => (0, spaces),
        };
        let between = if place > 0 { "  " } else { "" };
        let end = if is_last { "\n" } else { "" };
        write!(out, "{between}{:left$}{text}{:right$}{end}", "", "")
    }
}
