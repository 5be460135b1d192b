//! Lines and columns.

use crate::toml_places::locating::locate;
use crate::toml_places::paths::Path;
use std::alloc::Global;
use std::fmt;

/// A line and a column, both from 1 on. A column counts characters.
#[derive(Clone, Copy)]
pub struct Position {
    line: usize,
    column: usize,
}

impl Position {
    /// The position after so many octets of the text.
    pub fn after(text: &[u8], count: usize) -> Position {
        let mut line = 1usize;
        let mut column = 1usize;
        for octet in text.iter().take(count) {
            if *octet == b'\n' {
                line = line.saturating_add(1);
                column = 1;
            } else if *octet & 0xC0 != 0x80 {
                column = column.saturating_add(1);
            }
        }
        Position { line, column }
    }
}

/// `line:column`.
impl fmt::Display for Position {
    fn fmt<W: fmt::Write>(&self, f: &mut fmt::Formatter<W>) -> fmt::Result {
        write!(f, "{}:{}", self.line, self.column)
    }
}

/// Whether the position of a key or of its value is looked for.
#[derive(Clone, Copy)]
pub enum Side {
    /// That of the key.
    Key,
    /// That of the value.
    Value,
}

/// The position of what the path leads to in the text of a TOML document. `None` if it isn't
/// there, or if an allocation fails.
pub fn position_at(alloc: Global, octets: &[u8], path: &Path<'_>, side: Side) -> Option<Position> {
    let Ok(text) = str::from_utf8(octets) else {
        return None;
    };
    let steps = path.steps();
    if steps.is_empty() {
        return None;
    }
    let place = locate(alloc, text, steps)?;
    let rest = match side {
        Side::Key => place.key,
        Side::Value => place.value,
    };
    Some(Position::after(octets, text.len().saturating_sub(rest.len())))
}
