//! A sentence for each pending request for a newer seqno.

use crate::fields::{field, interface_name, word};
use crate::objects::{ShortAddress, Value, write_members};
use std::io::{self, Write};

/// A pending request, by the words of its line: `PREFIX requested SEQNO router ID of N ADDRESS due
/// TIME`, without a neighbour if several were asked, and with `forwarded` if it was passed on.
#[derive(Clone, Copy)]
pub(crate) struct Request<'l> {
    prefix: &'l str,
    /// `requested` or `forwarded`.
    status: &'l str,
    seqno: &'l str,
    router: &'l str,
    /// The neighbour that was asked, if it is one, and its device.
    asked: Option<(&'l str, &'l str)>,
    /// After how many centiseconds it is repeated or given up.
    due: &'l str,
}

/// The request of a line, if it is one.
pub(crate) fn request_of<'l>(answer: &'l str, line: &'l str) -> Option<Request<'l>> {
    let asked = match word(line, 5) {
        "of" => Some((word(line, 7), interface_name(answer, word(line, 6)))),
        _ => None,
    };
    let request = Request {
        prefix: word(line, 0),
        status: word(line, 1),
        seqno: word(line, 2),
        router: word(line, 4),
        asked,
        due: field(line, "due"),
    };
    let is_whole = matches!(request.status, "requested" | "forwarded")
        && word(line, 3) == "router"
        && !request.due.is_empty();
    is_whole.then_some(request)
}

pub(crate) fn write_request<W: Write>(request: &Request<'_>, out: &mut W) -> io::Result<()> {
    let Request {
        prefix,
        status,
        seqno,
        router,
        asked,
        ..
    } = *request;
    write!(out, "{prefix}: ")?;
    match asked {
        Some((address, device)) => {
            let via = ShortAddress(address);
            write!(out, "{via} on {device} was asked")?;
        }
        None if status == "forwarded" => write!(out, "a neighbour asked")?,
        None => write!(out, "each neighbour of an unfeasible route was asked")?,
    }
    writeln!(
        out,
        " for seqno {seqno} of router {router}, and no reply has come yet"
    )
}

pub(crate) fn write_request_object<W: Write>(request: &Request<'_>, out: &mut W) -> io::Result<()> {
    let prefix = ("prefix", Value::Text(request.prefix));
    let status = ("status", Value::Text(request.status));
    let seqno = ("seqno", Value::number(request.seqno));
    let router = ("router", Value::Text(request.router));
    let due = ("due", Value::number(request.due));
    match request.asked {
        Some((address, device)) => {
            let via = ("via", Value::Address(address));
            let device = ("device", Value::Text(device));
            write_members(&[prefix, via, device, status, seqno, router, due], out)
        }
        None => write_members(&[prefix, status, seqno, router, due], out),
    }
}
