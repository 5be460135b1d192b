//! The timeline of an SVG: a row for each node, and the moments at which something happened.

use crate::drawing::elements::{END, MIDDLE, write_text, write_upright};
use crate::drawing::marks::{marks_height, write_marks};
use crate::drawing::pictures::{Hop, Picture, Row, Span, Timeline};
use crate::drawing::scale::{NAMES, Scale};
use crate::drawing::svg::MARGIN;
use crate::drawing::texts::{Seconds, Short, drawn_len, seconds_len};
use std::alloc::Global;
use std::io::{self, Write};

/// The height of a row, in pixels.
fn row_height(rows: usize) -> i64 {
    if rows > 24 { 15 } else { 21 }
}

/// The room of a number of rows, in pixels.
fn rows_height(rows: usize) -> i64 {
    let rows = rows.min(65_536) as i64;
    if rows > 24 { rows * 15 } else { rows * 21 }
}

/// Round times between two numbers of the axis, in centiseconds.
const STEPS: [u64; 16] = [
    1, 2, 5, 10, 20, 50, 100, 200, 500, 1000, 2000, 3000, 6000, 12000, 30000, 60000,
];

/// The classes of the colours of next hops, by their numbers.
const COLORS: [&str; 8] = ["v0", "v1", "v2", "v3", "v4", "v5", "v6", "v7"];

/// The height of the timeline, in pixels.
pub(crate) fn timeline_height(timeline: &Timeline) -> i64 {
    marks_height(&timeline.marks)
        .saturating_add(rows_height(timeline.rows.len()))
        .saturating_add(46)
}

/// Writes the timeline of a picture that is so many pixels wide.
pub(crate) fn write_timeline<W: Write>(
    alloc: Global,
    picture: &Picture,
    width: i64,
    out: &mut W,
) -> io::Result<()> {
    let timeline = &picture.timeline;
    let scale = Scale::new(timeline, width);
    let top = marks_height(&timeline.marks);
    let bottom = top.saturating_add(rows_height(timeline.rows.len()));
    write_axis(&scale, top, bottom, out)?;
    let mut y = top;
    for (node, row) in timeline.rows.iter().enumerate() {
        write_name(picture, node, y, out)?;
        write_row(picture, row, &scale, y, out)?;
        y = y.saturating_add(row_height(timeline.rows.len()));
    }
    write_marks(alloc, &timeline.marks, &scale, (top, bottom), out)?;
    write_moment(timeline.moment, &scale, top, bottom, out)
}

/// The time between two numbers of the axis, in centiseconds: a round one, for at most 13 numbers.
fn tick_step(shown: u64) -> u64 {
    let least = shown / 12;
    for step in STEPS {
        if least <= step {
            return step;
        }
    }
    least.max(1)
}

fn write_axis<W: Write>(scale: &Scale, top: i64, bottom: i64, out: &mut W) -> io::Result<()> {
    let step = tick_step(scale.shown()).max(1);
    let first = scale.begin.div_ceil(step);
    let low = bottom.saturating_add(16);
    for tick in 0..14u64 {
        let moment = first.saturating_add(tick).saturating_mul(step);
        if moment > scale.end {
            break;
        }
        let x = scale.at(moment);
        write_upright("line", x, top, bottom, out)?;
        write_text(
            MIDDLE,
            (label_at(scale, moment), low),
            &Seconds(moment),
            out,
        )?;
    }
    Ok(())
}

/// Where the middle of the number of a moment is: at the moment, or so far to the left of it that
/// the number is in the picture.
fn label_at(scale: &Scale, moment: u64) -> i64 {
    let half = seconds_len(moment).saturating_mul(3).saturating_add(1);
    let last = scale.right().saturating_add(MARGIN).saturating_sub(half);
    scale.at(moment).min(last)
}

fn write_name<W: Write>(picture: &Picture, node: usize, y: i64, out: &mut W) -> io::Result<()> {
    let Some(node) = picture.nodes.get(node) else {
        return Ok(());
    };
    let at = (NAMES - 8, y.saturating_add(12));
    write_text(END, at, &Short(&node.name), out)
}

fn write_row<W: Write>(
    picture: &Picture,
    row: &Row,
    scale: &Scale,
    y: i64,
    out: &mut W,
) -> io::Result<()> {
    let height = row_height(picture.timeline.rows.len()).saturating_sub(3);
    for (index, span) in row.spans.iter().enumerate() {
        let end = match row.spans.get(index.saturating_add(1)) {
            Some(next) => next.from,
            None => scale.end,
        };
        if end <= scale.begin || span.from >= scale.end {
            continue;
        }
        let left = scale.at(span.from);
        // What lasts for a moment alone can be seen too.
        let width = scale.at(end).saturating_sub(left).max(1);
        write_bar(span, (left, y), (width, height), out)?;
        write_bar_text(picture, span, (left, y), width, out)?;
    }
    Ok(())
}

fn write_bar<W: Write>(
    span: &Span,
    at: (i64, i64),
    size: (i64, i64),
    out: &mut W,
) -> io::Result<()> {
    let (x, y) = at;
    let (width, height) = size;
    let class = match span.hop {
        Hop::Announces => "own",
        Hop::Via(next) => COLORS[next % COLORS.len()],
        Hop::Unreachable => "none",
        Hop::Down => "down",
    };
    writeln!(
        out,
        "<rect class=\"{class}\" x=\"{x}\" y=\"{y}\" width=\"{width}\" height=\"{height}\"/>"
    )
}

/// Writes what the node does, if there is room.
fn write_bar_text<W: Write>(
    picture: &Picture,
    span: &Span,
    at: (i64, i64),
    width: i64,
    out: &mut W,
) -> io::Result<()> {
    let (class, text) = match span.hop {
        Hop::Announces => ("class=\"small in\"", "announces"),
        Hop::Via(next) => ("class=\"small\"", name_of(picture, next)),
        Hop::Unreachable => ("class=\"small\"", "no route"),
        Hop::Down => ("class=\"small quiet\"", "stopped"),
    };
    let letters = drawn_len(text).min(100) as i64;
    if width < letters.saturating_mul(7).saturating_add(8) {
        return Ok(());
    }
    let x = at.0.saturating_add(5);
    let y = at.1.saturating_add(if picture.timeline.rows.len() > 24 {
        10
    } else {
        13
    });
    write_text(class, (x, y), &Short(text), out)
}

fn name_of(picture: &Picture, node: usize) -> &str {
    match picture.nodes.get(node) {
        Some(node) => &node.name,
        None => "?",
    }
}

/// The text at the moment that the network is drawn at.
const SHOWN: &str = "shown above";

/// Half of its width, in pixels.
const HALF_SHOWN: i64 = 40;

/// Writes the moment that the network is drawn at. At the right end, which is drawn if no other is
/// named, the text ends at the moment: around it, it would leave the picture.
fn write_moment<W: Write>(
    moment: u64,
    scale: &Scale,
    top: i64,
    bottom: i64,
    out: &mut W,
) -> io::Result<()> {
    let x = scale.at(moment);
    let low = bottom.saturating_add(6);
    let text = bottom.saturating_add(32);
    let high = top.saturating_sub(2);
    write_upright("moment", x, high, low, out)?;
    let is_wide = x.saturating_add(HALF_SHOWN) > scale.right();
    let attributes = if is_wide { END } else { MIDDLE };
    write_text(attributes, (x, text), &SHOWN, out)
}
