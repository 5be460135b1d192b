//! `babel show HEX`: what one datagram means.

use crate::showing::explaining::{Origin, explain_meaning};
use crate::showing::{Status, report};
use babel_line_details::SeenCodes;
use babel_message::{Placed, Refusal};
use babel_packet::decode;
use babel_text::LineFault;
use babel_value::line_parts::put_str;
use babel_value::{Addr, LINE_ROOM, ShortText};
use std::alloc::Global;
use std::io::Write;

/// The text of no octets: an empty text is bad hexadecimal.
const NO_OCTETS: &str = "-";

/// How many octets of lines are put together before they are written.
pub(crate) const PAGE_LEN: usize = 4096;

/// Writes what a datagram means: a line for each TLV, or `refused` and the code. `source` is the
/// address that it came from, `hex` its octets in hexadecimal. A fault of the arguments is written
/// to `err`.
pub fn show<W: Write, E: Write>(
    alloc: Global,
    source: &str,
    hex: &str,
    out: &mut W,
    err: &mut E,
) -> Status {
    match try_show(alloc, source, hex, out) {
        Ok(status) => status,
        Err(fault) => report(fault, err),
    }
}

/// The same, and a fault of the arguments, of writing or of memory is returned.
pub fn try_show<W: Write>(
    alloc: Global,
    source: &str,
    hex: &str,
    out: &mut W,
) -> Result<Status, LineFault> {
    let meaning = read_meaning(alloc, source, hex)?;
    write_whole(&meaning, out)
}

/// The same, and the sentence of each code of the lines is written to `err`, once for each code.
pub fn try_show_explained<W: Write, E: Write>(
    alloc: Global,
    source: &str,
    hex: &str,
    out: &mut W,
    err: &mut E,
) -> Result<Status, LineFault> {
    let meaning = read_meaning(alloc, source, hex)?;
    write_explained(&meaning, out, err)
}

fn write_explained<W: Write, E: Write>(
    meaning: &Result<Vec<Placed>, Refusal>,
    out: &mut W,
    err: &mut E,
) -> Result<Status, LineFault> {
    let status = write_whole(meaning, out)?;
    explain_meaning(meaning, Origin::Argument, &mut SeenCodes::new(), out, err)?;
    Ok(status)
}

/// What the datagram means.
fn read_meaning(
    alloc: Global,
    source: &str,
    hex: &str,
) -> Result<Result<Vec<Placed>, Refusal>, LineFault> {
    let source = read_source(source)?;
    let octets = read_octets(alloc, hex)?;
    Ok(decode(alloc, octets.as_slice(), source))
}

/// Writes the lines of a datagram, which is the only one.
fn write_whole<W: Write>(
    meaning: &Result<Vec<Placed>, Refusal>,
    out: &mut W,
) -> Result<Status, LineFault> {
    write_meaning(meaning, out)?;
    out.flush().map_err(LineFault::of_writing)?;
    Ok(if meaning.is_ok() {
        Status::Done
    } else {
        Status::Refused
    })
}

pub(crate) fn read_source(text: &str) -> Result<Addr, LineFault> {
    text.parse::<Addr>().map_err(|_| LineFault::Address)
}

fn read_octets(alloc: Global, text: &str) -> Result<Vec<u8>, LineFault> {
    if text == NO_OCTETS {
        return Ok(Vec::new(alloc));
    }
    if text.is_empty() {
        return Err(LineFault::Hex);
    }
    Ok(hex::decode(alloc, text)?)
}

/// Writes the lines of a datagram.
fn write_meaning<W: Write>(
    meaning: &Result<Vec<Placed>, Refusal>,
    out: &mut W,
) -> Result<(), LineFault> {
    match meaning {
        Ok(placed) => write_places(placed.as_slice(), &mut [0; PAGE_LEN], out),
        Err(refusal) => write_refusal(*refusal, out),
    }
}

/// Writes a line for each place. They are put together in `page`, and written as octets, since a
/// text would be tested for UTF-8.
pub(crate) fn write_places<W: Write>(
    placed: &[Placed],
    page: &mut [u8; PAGE_LEN],
    out: &mut W,
) -> Result<(), LineFault> {
    let mut len = 0;
    for place in placed {
        if len > PAGE_LEN - LINE_ROOM {
            out.write_all(&page[..len]).map_err(LineFault::of_writing)?;
            len = 0;
        }
        len = place.put(page, len);
        len = put_str(page, len, "\n");
    }
    out.write_all(&page[..len]).map_err(LineFault::of_writing)
}

/// Writes the line of a refused datagram.
pub(crate) fn write_refusal<W: Write>(refusal: Refusal, out: &mut W) -> Result<(), LineFault> {
    writeln!(out, "refused {}", refusal.code()).map_err(LineFault::of_writing)
}
