//! The keys of each table, in the order in which they are read, and what their values are.

use std::fmt;

/// A kind of table in a file.
#[derive(Clone, Copy)]
pub(crate) enum TableKind {
    /// The file of a scenario.
    Scenario,
    /// The file of a configuration, or a node of a scenario.
    Config,
    /// An interface of a configuration.
    Interface,
}

impl TableKind {
    /// The keys that the table may have.
    pub(crate) fn rules(self) -> &'static [Rule] {
        match self {
            TableKind::Scenario => &SCENARIO_RULES,
            TableKind::Config => &CONFIG_RULES,
            TableKind::Interface => &INTERFACE_RULES,
        }
    }

    /// The key of the list of such tables.
    pub(crate) fn list(self) -> &'static str {
        match self {
            TableKind::Interface => "interface",
            _ => "node",
        }
    }
}

/// What a value is, if it is no list or table.
#[derive(Clone, Copy)]
pub(crate) enum ValueKind {
    RouterId,
    /// A number from the first to the second.
    Number(u16, u16),
    TruthValue,
    Transport,
    Ipv4Network,
    Ipv6Address,
    Address,
    Prefix,
    Event,
}

impl ValueKind {
    /// Whether the value is a text.
    pub(crate) fn is_text(self) -> bool {
        !matches!(self, ValueKind::Number(_, _) | ValueKind::TruthValue)
    }
}

/// What the value must be, after `is not` or `must be`.
impl fmt::Display for ValueKind {
    fn fmt<W: fmt::Write>(&self, f: &mut fmt::Formatter<W>) -> fmt::Result {
        f.write_str(match *self {
            ValueKind::RouterId => "a router-id of 16 hexadecimal digits",
            ValueKind::Number(least, greatest) => {
                return write!(f, "a number from {least} to {greatest}");
            }
            ValueKind::TruthValue => "true or false",
            ValueKind::Transport => "\"ipv4\" or \"ipv6\"",
            ValueKind::Ipv4Network => "an IPv4 address with a length, as 192.168.0.2/24",
            ValueKind::Ipv6Address => "an IPv6 address, as fe80::1",
            ValueKind::Address => "an address, as 192.168.0.1 or fe80::1",
            ValueKind::Prefix => "a prefix, as 10.0.0.0/8 or 2001:db8::/32",
            ValueKind::Event => "an event, as \"tick 0 100\"",
        })
    }
}

/// What is at a key.
#[derive(Clone, Copy)]
pub(crate) enum Form {
    /// A value of this kind, which the table must have.
    Required(ValueKind),
    /// A value of this kind, which the table may have.
    Optional(ValueKind),
    /// A list of such values, and what one of them is called.
    List(ValueKind, &'static str),
    /// A list of tables. It is read last.
    Tables,
}

/// A key, and what is there.
#[derive(Clone, Copy)]
pub(crate) struct Rule {
    pub(crate) key: &'static str,
    pub(crate) form: Form,
}

static SCENARIO_RULES: [Rule; 2] = [
    Rule {
        key: "events",
        form: Form::List(ValueKind::Event, "event"),
    },
    Rule {
        key: "node",
        form: Form::Tables,
    },
];

static CONFIG_RULES: [Rule; 5] = [
    Rule {
        key: "router-id",
        form: Form::Required(ValueKind::RouterId),
    },
    Rule {
        key: "seqno",
        form: Form::Optional(ValueKind::Number(0, 65535)),
    },
    Rule {
        key: "collect",
        form: Form::Optional(ValueKind::TruthValue),
    },
    Rule {
        key: "prefixes",
        form: Form::List(ValueKind::Prefix, "prefix"),
    },
    Rule {
        key: "interface",
        form: Form::Tables,
    },
];

static INTERFACE_RULES: [Rule; 6] = [
    Rule {
        key: "transport",
        form: Form::Required(ValueKind::Transport),
    },
    Rule {
        key: "ipv4",
        form: Form::Optional(ValueKind::Ipv4Network),
    },
    Rule {
        key: "ipv6",
        form: Form::Optional(ValueKind::Ipv6Address),
    },
    Rule {
        key: "peers",
        form: Form::List(ValueKind::Address, "peer"),
    },
    Rule {
        key: "cost",
        form: Form::Optional(ValueKind::Number(1, 65534)),
    },
    Rule {
        key: "hello",
        form: Form::Optional(ValueKind::Number(1, 4000)),
    },
];
