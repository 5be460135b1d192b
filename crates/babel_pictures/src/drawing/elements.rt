//! The lines and texts of an SVG.

use crate::drawing::numbers::{Place, whole};
use std::fmt::Display;
use std::io::{self, Write};

/// The attributes of a text that begins at its place, of one around it, and of one that ends there.
pub(crate) const START: &str = "class=\"quiet\" text-anchor=\"start\"";

pub(crate) const MIDDLE: &str = "class=\"quiet\" text-anchor=\"middle\"";

pub(crate) const END: &str = "class=\"quiet\" text-anchor=\"end\"";

/// Writes a line from one place to another. The attributes are those that it has besides.
pub(crate) fn write_line<W: Write>(
    attributes: &str,
    from: Place,
    to: Place,
    out: &mut W,
) -> io::Result<()> {
    let (fx, fy) = (whole(from.x), whole(from.y));
    let (tx, ty) = (whole(to.x), whole(to.y));
    writeln!(out, "<path {attributes} d=\"M{fx} {fy}L{tx} {ty}\"/>")
}

/// Writes a line of this class from the top down to the bottom.
pub(crate) fn write_upright<W: Write>(
    class: &str,
    x: i64,
    top: i64,
    bottom: i64,
    out: &mut W,
) -> io::Result<()> {
    writeln!(out, "<path class=\"{class}\" d=\"M{x} {top}V{bottom}\"/>")
}

/// Writes a text at a place. The attributes are those that it has besides.
pub(crate) fn write_text<T: Display, W: Write>(
    attributes: &str,
    at: (i64, i64),
    text: &T,
    out: &mut W,
) -> io::Result<()> {
    let (x, y) = at;
    writeln!(out, "<text {attributes} x=\"{x}\" y=\"{y}\">{text}</text>")
}
