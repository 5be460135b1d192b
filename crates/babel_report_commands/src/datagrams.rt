//! The command `show`: the datagram of an argument, or those of the standard input.

use babel_arguments::{NotingWriter, argument, explain_output, wants_details};
use babel_commands::{
    BadLines, Details, LineOptions, Status, show_lines, try_show, try_show_explained,
};
use babel_text::LineFault;
use clap::ArgMatches;
use std::alloc::Global;
use std::io::{BufWriter, IsTerminal, Read, Write};

/// The source address that is used if none is given: a link-local one, as most Babel speakers have.
const DEFAULT_SOURCE: &str = "fe80::1";

/// The source address of a datagram that comes without one.
fn source_of<'m>(arguments: &'m ArgMatches<'_>) -> &'m str {
    match arguments.get_str("source") {
        Some(source) => source,
        None => DEFAULT_SOURCE,
    }
}

/// Whether sentences on the codes of a report are wanted.
pub(crate) fn details_of<E: IsTerminal>(arguments: &ArgMatches<'_>, err: &E) -> Details {
    if wants_details(arguments, err) {
        Details::Shown
    } else {
        Details::Hidden
    }
}

/// Shows the datagram of an argument. The sentences on its codes are written to `err`.
pub fn run_show<W: Write, E: Write + IsTerminal>(
    alloc: Global,
    arguments: &ArgMatches<'_>,
    out: &mut W,
    err: &mut E,
) -> Result<Status, LineFault> {
    let source = source_of(arguments);
    let hex = argument(arguments, "hex");
    match details_of(arguments, err) {
        Details::Shown => try_show_explained(alloc, source, hex, out, err),
        Details::Hidden => try_show(alloc, source, hex, out),
    }
}

/// Shows the datagrams of the standard input. A fault is written.
pub fn show_input<R: Read, W: Write + Drop, E: Write + IsTerminal>(
    alloc: Global,
    arguments: &ArgMatches<'_>,
    input: &mut R,
    out: &mut BufWriter<NotingWriter<W>>,
    err: &mut E,
) -> Status {
    let details = details_of(arguments, err);
    let bad_lines = if arguments.get_flag("keep-going") {
        BadLines::GoOn
    } else {
        BadLines::End
    };
    let options = LineOptions {
        source: source_of(arguments),
        // The objects of a datagram name its line and its source.
        header: arguments.get_flag("header") || arguments.get_flag("json"),
        bad_lines,
        details,
    };
    let status = show_lines(alloc, options, input, out, err);
    if let (Details::Shown, Some(failure)) = (details, out.get_ref().failure()) {
        // If writing the sentence fails, the status still reports the fault.
        let _ = explain_output(failure, err);
    }
    status
}
