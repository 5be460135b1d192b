//! The commands as tables of their arguments.

use crate::help;
use babel_arguments::{
    Argument, CommandName, DETAILS, FLAG, KEEP, NEW, OPTION, POSITIONAL, RESTORE, Rule, Subcommand,
    Takes,
};

/// The most turns of a run.
const MAX_TURNS: u64 = 1_000_000;

/// The option that prints routes.
const ROUTES: Argument = Argument {
    name: "routes",
    help: "Prints each change of a selected route, and all of them at the end",
    ..FLAG
};

/// The option that names the control socket of the speaker that runs.
const CONTROL: Argument = Argument {
    name: "control",
    takes: Takes::Text("PLACE"),
    help: "A Unix socket at a path, or a port of ::1, on which the running speaker answers as \
           babeld's does",
    ..OPTION
};

/// The option that names the UDP port.
const PORT: Argument = Argument {
    name: "port",
    takes: Takes::Number("P", 1, 65535),
    help: "The UDP port of all speakers, 1 to 65535 [default: 6696]",
    ..OPTION
};

/// The command `speak`.
pub const SPEAK: Subcommand = Subcommand {
    command: CommandName::Speak,
    name: "speak",
    about: "Speaks Babel over UDP and IPv4",
    usage: None,
    after_help: help::SPEAK,
    arguments: &[
        Argument {
            name: "config",
            takes: Takes::Text("CONFIG"),
            help: "The configuration of the speaker, a TOML file",
            ..POSITIONAL
        },
        Argument {
            name: "turns",
            takes: Takes::Number("N", 1, MAX_TURNS),
            rules: &[Rule::Required],
            help: "How many turns the speaker has, 1 to 1000000",
            ..OPTION
        },
        PORT,
        ROUTES,
        RESTORE,
        Argument {
            name: "save",
            takes: Takes::Text("FILE"),
            help: "The file to which the speaker is saved after its last turn",
            ..OPTION
        },
        // What is kept all the time is neither restored from another file nor saved at the end.
        Argument {
            rules: &[Rule::ConflictsWith("restore"), Rule::ConflictsWith("save")],
            ..KEEP
        },
        NEW,
        // Nor is a speaker that can be asked.
        Argument {
            rules: &[Rule::ConflictsWith("restore"), Rule::ConflictsWith("save")],
            ..CONTROL
        },
        DETAILS,
    ],
};

/// The command `run`.
pub const RUN: Subcommand = Subcommand {
    command: CommandName::Run,
    name: "run",
    about: "Routes over IPv6 links, next to babeld, BIRD and FRR",
    usage: None,
    after_help: help::RUN,
    arguments: &[
        Argument {
            name: "device",
            takes: Takes::Texts("DEVICE"),
            help: "The network devices that the speaker uses, as eth0",
            ..POSITIONAL
        },
        Argument {
            name: "router-id",
            takes: Takes::Text("ID"),
            help: "The router-id, 16 hexadecimal digits [default: of the first device's address]",
            ..OPTION
        },
        Argument {
            name: "announce",
            takes: Takes::Texts("PREFIX"),
            help: "A prefix that the speaker announces, as 10.1.0.0/16",
            ..OPTION
        },
        Argument {
            name: "ipv4",
            takes: Takes::Texts("DEVICE=ADDR/LEN"),
            help: "The IPv4 address of a device; ./babel run finds it",
            ..OPTION
        },
        Argument {
            name: "cost",
            takes: Takes::Number("N", 1, 65534),
            help: "The nominal cost of receiving over each device, 1 to 65534 [default: 96]",
            ..OPTION
        },
        Argument {
            name: "hello",
            takes: Takes::Number("N", 1, 4000),
            help: "The interval between two Hellos in centiseconds, 1 to 4000 [default: 400]",
            ..OPTION
        },
        Argument {
            name: "config",
            takes: Takes::Text("FILE"),
            help: "Settings by device, router-id and prefixes, a TOML file",
            ..OPTION
        },
        Argument {
            takes: Takes::Number("N", 1, 65535),
            ..PORT
        },
        Argument {
            name: "turns",
            takes: Takes::Number("N", 1, u64::MAX),
            help: "Ends after so many turns [default: when the input ends]",
            ..OPTION
        },
        KEEP,
        NEW,
        CONTROL,
        ROUTES,
        Argument {
            name: "ip",
            help: "Prints each change of a selected route as a command for ip -force -batch -",
            ..FLAG
        },
        DETAILS,
    ],
};

/// The command `ask`.
pub const ASK: Subcommand = Subcommand {
    command: CommandName::Ask,
    name: "ask",
    about: "Asks a running speaker for its neighbours and routes, and why a route is used or not",
    usage: None,
    after_help: help::ASK,
    arguments: &[
        Argument {
            name: "question",
            takes: Takes::Text("QUESTION"),
            help: "neighbours, routes, why, log or counts",
            ..POSITIONAL
        },
        Argument {
            name: "prefix",
            takes: Takes::Text("PREFIX"),
            rules: &[],
            help: "The prefix after why, as 10.0.0.0/8",
            ..POSITIONAL
        },
        Argument {
            name: "control",
            takes: Takes::Text("PLACE"),
            help: "The control socket of the speaker: its path, or its port \
                   [default: /run/babel/control]",
            ..OPTION
        },
        Argument {
            name: "json",
            help: "Writes a JSON object a line",
            ..FLAG
        },
        DETAILS,
    ],
};
