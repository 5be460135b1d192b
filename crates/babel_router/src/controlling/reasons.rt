//! Why each route of a prefix is used or not: the lines of `babel explain`.

use babel_replay::{route_fields, route_line};
use babel_speaker::Speaker;
use babel_value::Prefix;
use std::alloc::AllocError;

/// Adds a line for each route of the prefix, ascending by neighbour.
pub(crate) fn push_routes(
    speaker: &Speaker,
    prefix: &Prefix,
    out: &mut String,
) -> Result<(), AllocError> {
    for index in 0..speaker.route_count() {
        let Some((peer, entry, cost)) = speaker.entry(prefix, index) else {
            return Ok(());
        };
        let line = route_line(&route_fields(speaker, prefix, peer, entry, cost));
        push_line(out, line.octets())?;
    }
    Ok(())
}

/// Adds a line, which has ASCII alone.
pub(crate) fn push_line(out: &mut String, octets: &[u8]) -> Result<(), AllocError> {
    match str::from_utf8(octets) {
        Ok(text) => out.push_str(text),
        Err(_) => Ok(()),
    }
}
