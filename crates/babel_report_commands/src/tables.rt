//! The commands as tables of their arguments.

use crate::help;
use babel_arguments::{
    Argument, CommandName, DETAILS, FLAG, OPTION, POSITIONAL, RESTORE, Rule, Subcommand, Takes,
};
use babel_json::WORDS;

/// The option with which a command writes objects.
const JSON: Argument = Argument {
    name: "json",
    help: "Writes a JSON object a line, also for what is wrong (docs/JSON.md)",
    ..FLAG
};

/// The option with which IPv6 addresses are short.
const SHORT: Argument = Argument {
    name: "short",
    help: "Writes IPv6 addresses as RFC 5952 does, as fe80::1",
    ..FLAG
};

/// The option with which a log ends early.
const UNTIL: Argument = Argument {
    name: "until",
    takes: Takes::Number("T", 0, u64::MAX),
    help: "Ends before the first line of the log that is later than T, in centiseconds",
    ..OPTION
};

/// The argument that names a configuration.
const CONFIG: Argument = Argument {
    name: "config",
    takes: Takes::Text("CONFIG"),
    help: "The configuration of a speaker, a TOML file",
    ..POSITIONAL
};

/// The argument that names a log.
const LOG: Argument = Argument {
    name: "log",
    takes: Takes::Text("LOG"),
    help: "What happened to the speaker, a line for each event",
    ..POSITIONAL
};

/// The command `show`.
pub const SHOW: Subcommand = Subcommand {
    command: CommandName::Show,
    name: "show",
    about: "Shows what each TLV of a datagram means",
    usage: Some(help::SHOW_USAGE),
    after_help: help::SHOW,
    arguments: &[
        Argument {
            name: "source",
            takes: Takes::Text("ADDR"),
            help: "The address that the datagram came from [default: fe80::1]",
            ..OPTION
        },
        Argument {
            name: "stdin",
            help: "Reads lines `<source> <hex>` or `<hex>` from standard input",
            ..FLAG
        },
        Argument {
            name: "header",
            rules: &[Rule::ConflictsWith("hex")],
            help: "With --stdin, writes `# <line> <source>` before each datagram",
            ..FLAG
        },
        Argument {
            name: "keep-going",
            rules: &[Rule::ConflictsWith("hex")],
            help: "With --stdin, goes on after a line that cannot be read",
            ..FLAG
        },
        SHORT,
        JSON,
        DETAILS,
        Argument {
            name: "hex",
            takes: Takes::Text("HEX"),
            rules: &[Rule::RequiredUnless("stdin"), Rule::ConflictsWith("stdin")],
            help: "The datagram's octets in hexadecimal, or - for none",
            ..POSITIONAL
        },
    ],
};

/// The command `check`.
pub const CHECK: Subcommand = Subcommand {
    command: CommandName::Check,
    name: "check",
    about: "Checks whether a speaker can be made of a configuration, or restored from a snapshot",
    usage: None,
    after_help: help::CHECK,
    arguments: &[CONFIG, RESTORE, JSON, DETAILS],
};

/// The command `replay`.
pub const REPLAY: Subcommand = Subcommand {
    command: CommandName::Replay,
    name: "replay",
    about: "Shows what a speaker makes of a log, and the routes that it selects",
    usage: None,
    after_help: help::REPLAY,
    arguments: &[
        CONFIG,
        LOG,
        Argument {
            name: "prefix",
            takes: Takes::Text("PREFIX"),
            help: "Writes the lines that name the prefix alone, as 10.0.0.0/8",
            ..OPTION
        },
        UNTIL,
        Argument {
            name: "only",
            takes: Takes::Words("WORD", &WORDS),
            help: "Writes the lines that have one of the words alone, as select,refused,V2",
            ..OPTION
        },
        SHORT,
        JSON,
        DETAILS,
    ],
};

/// The command `explain`.
pub const EXPLAIN: Subcommand = Subcommand {
    command: CommandName::Explain,
    name: "explain",
    about: "Shows each route to a prefix after a log, and why it is used or not",
    usage: None,
    after_help: help::EXPLAIN,
    arguments: &[
        CONFIG,
        LOG,
        Argument {
            name: "prefix",
            takes: Takes::Text("PREFIX"),
            help: "The prefix whose routes are explained, as 10.0.0.0/8",
            ..POSITIONAL
        },
        UNTIL,
        SHORT,
        JSON,
        DETAILS,
    ],
};

/// The command `net`.
pub const NET: Subcommand = Subcommand {
    command: CommandName::Net,
    name: "net",
    about: "Runs a network of speakers, and shows its next hops",
    usage: None,
    after_help: help::NET,
    arguments: &[
        Argument {
            name: "scenario",
            takes: Takes::Text("SCENARIO"),
            help: "The nodes of a network and its events, a TOML file",
            ..POSITIONAL
        },
        Argument {
            name: "events",
            help: "Writes for each event what it did, as the number of the datagram that was sent",
            ..FLAG
        },
        JSON,
        DETAILS,
    ],
};
