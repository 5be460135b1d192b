//! The sentence of each code of a datagram's lines.

use babel_line_details::{ReportCode, SeenCodes};
use babel_message::{Content, Placed, Refusal};
use babel_text::LineFault;
use std::fmt;
use std::io::Write;

/// Where a datagram came from.
#[derive(Clone, Copy)]
pub(crate) enum Origin {
    /// The argument HEX.
    Argument,
    /// The line of this number of the standard input.
    Line(u64),
}

impl fmt::Display for Origin {
    fn fmt<W: fmt::Write>(&self, f: &mut fmt::Formatter<W>) -> fmt::Result {
        match self {
            Origin::Argument => f.write_str("HEX"),
            Origin::Line(number) => write!(f, "standard input:{number}"),
        }
    }
}

/// Writes the sentence of each code of the datagram's lines that wasn't seen earlier. The lines are
/// flushed first, so they come before it.
pub(crate) fn explain_meaning<W: Write, E: Write>(
    meaning: &Result<Vec<Placed>, Refusal>,
    origin: Origin,
    seen: &mut SeenCodes,
    out: &mut W,
    err: &mut E,
) -> Result<(), LineFault> {
    match meaning {
        Ok(placed) => explain_places(placed.as_slice(), origin, seen, out, err),
        Err(refusal) => explain_refusal(*refusal, origin, seen, out, err),
    }
}

/// The same of a datagram that can be read.
pub(crate) fn explain_places<W: Write, E: Write>(
    placed: &[Placed],
    origin: Origin,
    seen: &mut SeenCodes,
    out: &mut W,
    err: &mut E,
) -> Result<(), LineFault> {
    for place in placed {
        let Content::Ignored(reason) = place.content else {
            continue;
        };
        let code = ReportCode::from(reason);
        if seen.add(code) {
            out.flush().map_err(LineFault::of_writing)?;
            // If writing the sentence fails, the lines are whole all the same.
            let _ = writeln!(err, "{origin}: offset {}: {code}", place.offset);
        }
    }
    Ok(())
}

/// The same of a refused datagram.
pub(crate) fn explain_refusal<W: Write, E: Write>(
    refusal: Refusal,
    origin: Origin,
    seen: &mut SeenCodes,
    out: &mut W,
    err: &mut E,
) -> Result<(), LineFault> {
    let code = ReportCode::from(refusal);
    if seen.add(code) {
        out.flush().map_err(LineFault::of_writing)?;
        let _ = writeln!(err, "{origin}: {code}");
    }
    Ok(())
}
