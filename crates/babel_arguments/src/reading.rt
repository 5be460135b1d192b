//! Arguments that the commands read in the same way.

use clap::ArgMatches;
use std::io::IsTerminal;

/// Whether people read the standard error: it is a terminal, or the option `--details` is given.
pub fn wants_details<E: IsTerminal>(arguments: &ArgMatches<'_>, err: &E) -> bool {
    arguments.get_flag("details") || err.is_terminal()
}

/// An argument, or an empty text.
pub fn argument<'m>(arguments: &'m ArgMatches<'_>, name: &str) -> &'m str {
    match arguments.get_str(name) {
        Some(text) => text,
        None => "",
    }
}

/// The moment up to which a log is read, in centiseconds.
pub fn until_of(arguments: &ArgMatches<'_>) -> Option<u64> {
    arguments.get_one::<u64>("until")
}
