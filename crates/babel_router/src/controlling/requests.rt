//! The pending requests for a newer seqno (RFC 8966, section 3.2.7).

use babel_speaker::Speaker;
use babel_state::{PendingRequest, Resend};
use babel_value::{Prefix, Source};
use std::alloc::AllocError;
use std::fmt::Write;

/// Adds a line for each one of the prefix, ascending by router-id.
pub(crate) fn push_requests(
    speaker: &Speaker,
    prefix: &Prefix,
    now: u64,
    out: &mut String,
) -> Result<(), AllocError> {
    for place in 0..speaker.request_count() {
        let Some((source, request)) = speaker.request(place) else {
            return Ok(());
        };
        if source.prefix == *prefix {
            push_request(&source, &request, now, out)?;
        }
    }
    Ok(())
}

fn push_request(
    source: &Source,
    request: &PendingRequest,
    now: u64,
    out: &mut String,
) -> Result<(), AllocError> {
    let Source { prefix, router } = *source;
    let seqno = request.seqno.0;
    let due = request.due.saturating_sub(now);
    match request.resend {
        Resend::Unfeasible => writeln!(out, "{prefix} requested {seqno} router {router} due {due}"),
        Resend::Neighbour(peer) => {
            let iface = peer.iface;
            let address = peer.addr;
            writeln!(
                out,
                "{prefix} requested {seqno} router {router} of {iface} {address} due {due}"
            )
        }
        Resend::Never => writeln!(out, "{prefix} forwarded {seqno} router {router} due {due}"),
    }
}
