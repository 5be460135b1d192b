//! The moments of a timeline at which something happened: a line for each, and its text above the
//! rows.
//!
//! No text is over another one, and no line goes through a text. A text that has no such place is
//! left out, and its line is drawn.

use crate::drawing::elements::{END, START, write_text, write_upright};
use crate::drawing::pictures::Mark;
use crate::drawing::scale::Scale;
use crate::drawing::texts::{ShortNames, short_names_len};
use std::alloc::{AllocError, Global};
use std::io::{self, Write};

/// The height of a lane of texts, in pixels.
const LANE: i64 = 15;

/// The most lanes.
const MAX_LANES: usize = 6;

/// The room of the marks above the rows, in pixels.
pub(crate) fn marks_height(marks: &[Mark]) -> i64 {
    let lanes = marks.len().clamp(1, MAX_LANES) as i64;
    LANE.saturating_mul(lanes).saturating_add(24)
}

/// On which side of its line the text of a mark is.
#[derive(Clone, Copy, PartialEq, Eq)]
enum Side {
    Left,
    Right,
}

/// A mark, and which room it takes, in pixels.
#[derive(Clone, Copy)]
struct Label<'m> {
    mark: &'m Mark,
    /// Where its line is, from the left.
    line: i64,
    /// How long its text is.
    length: i64,
    side: Side,
}

/// The room that a text and its line have.
#[derive(Clone, Copy)]
struct Room {
    line: i64,
    /// From where to where the text is.
    begin: i64,
    end: i64,
    /// The lane of the text, from 0 on upwards. The line begins there, and goes down.
    lane: i64,
}

impl Room {
    fn new(label: &Label<'_>, lane: i64) -> Room {
        let line = label.line;
        let (begin, end) = match label.side {
            Side::Left => (line.saturating_sub(label.length), line),
            Side::Right => (line, line.saturating_add(label.length)),
        };
        Room {
            line,
            begin,
            end,
            lane,
        }
    }

    /// Whether nothing of one is over the other's text.
    fn is_clear_of(&self, other: &Room) -> bool {
        let are_apart = self.lane != other.lane
            || self.end <= other.begin
            || other.end <= self.begin;
        are_apart && !self.crosses(other) && !other.crosses(self)
    }

    /// Whether the line goes through the other's text.
    fn crosses(&self, other: &Room) -> bool {
        other.begin < self.line && self.line < other.end && other.lane <= self.lane
    }
}

/// Writes the marks between the top and the bottom of the rows. Each of those on the left is above
/// those before it that it would reach, and each on the right above those after it.
pub(crate) fn write_marks<W: Write>(
    alloc: Global,
    marks: &[Mark],
    scale: &Scale,
    rows: (i64, i64),
    out: &mut W,
) -> io::Result<()> {
    let labels = labels_of(alloc, marks, scale)?;
    let mut taken = Vec::new(alloc);
    for label in labels.iter().rev() {
        if label.side == Side::Left {
            write_label(label, &mut taken, rows, out)?;
        }
    }
    for label in labels.iter() {
        if label.side == Side::Right {
            write_label(label, &mut taken, rows, out)?;
        }
    }
    Ok(())
}

/// The marks that the timeline shows, from the last one to the first. A text is on the left if it
/// would leave the picture on the right, or if its line would go through such a text.
fn labels_of<'m>(
    alloc: Global,
    marks: &'m [Mark],
    scale: &Scale,
) -> Result<Vec<Label<'m>>, AllocError> {
    let mut labels = Vec::new(alloc);
    // Where the texts on the left begin.
    let mut reach = i64::MAX;
    for mark in marks.iter().rev() {
        if scale.has(mark.at) {
            let line = scale.at(mark.at);
            let length = length_of(mark);
            let side = side_of(line, length, reach, scale.right());
            if side == Side::Left {
                reach = reach.min(line.saturating_sub(length));
            }
            labels.push(Label {
                mark,
                line,
                length,
                side,
            })?;
        }
    }
    Ok(labels)
}

/// How long the text of a mark is, in pixels, with the room around it.
fn length_of(mark: &Mark) -> i64 {
    let letters = short_names_len(&mark.text).min(1000) as i64;
    letters.saturating_mul(7).saturating_add(12)
}

fn side_of(line: i64, length: i64, reach: i64, right: i64) -> Side {
    let is_wide = line.saturating_add(length) > right;
    if is_wide || (line > reach && length <= line) {
        Side::Left
    } else {
        Side::Right
    }
}

/// The lowest lane that has room for the text.
fn room_for(label: &Label<'_>, taken: &[Room]) -> Option<Room> {
    for lane in 0..MAX_LANES as i64 {
        let room = Room::new(label, lane);
        if room.begin >= 0 && is_clear(&room, taken) {
            return Some(room);
        }
    }
    None
}

fn is_clear(room: &Room, taken: &[Room]) -> bool {
    for other in taken {
        if !room.is_clear_of(other) {
            return false;
        }
    }
    true
}

/// Writes the line of a mark, and its text if there is room.
fn write_label<W: Write>(
    label: &Label<'_>,
    taken: &mut Vec<Room>,
    (top, bottom): (i64, i64),
    out: &mut W,
) -> io::Result<()> {
    let Some(room) = room_for(label, taken) else {
        return write_upright("mark", label.line, top, bottom, out);
    };
    taken.push(room)?;
    let y = top
        .saturating_sub(LANE.saturating_mul(room.lane))
        .saturating_sub(5);
    write_upright("mark", label.line, y, bottom, out)?;
    let (attributes, x) = match label.side {
        Side::Left => (END, label.line.saturating_sub(4)),
        Side::Right => (START, label.line.saturating_add(4)),
    };
    write_text(attributes, (x, y), &ShortNames(&label.mark.text), out)
}
