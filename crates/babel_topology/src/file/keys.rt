//! The keys of the file's tables, and what their values are.

use std::fmt;

/// What the value at a key is.
#[derive(Clone, Copy)]
pub enum Kind {
    /// A name.
    Name,
    /// 16 hexadecimal digits.
    RouterId,
    /// A prefix.
    Prefix,
    /// A list of them.
    Prefixes,
    /// How a node begins again.
    Restarts,
    /// A time.
    Time,
    /// The interval between two Hellos.
    HelloInterval,
    /// A number from the first to the second.
    Number(i64, i64),
    /// A text.
    Text,
    /// A list of texts.
    Texts,
    /// A list of tables.
    Tables,
    /// A table of such a list.
    Table,
}

/// What the value must be, after `is not` or `must be`.
impl fmt::Display for Kind {
    fn fmt<W: fmt::Write>(&self, f: &mut fmt::Formatter<W>) -> fmt::Result {
        f.write_str(match *self {
            Kind::Name => "the name of a node, without blanks and dashes",
            Kind::RouterId => "a router-id of 16 hexadecimal digits",
            Kind::Prefix => "a prefix, as 10.0.0.0/8 or 2001:db8::/32",
            Kind::Prefixes => "a list of prefixes, as [\"10.0.0.0/8\"]",
            Kind::Restarts => "\"saved\" or \"empty\"",
            Kind::Time => "a time up to 65535 of a unit, as 20 s, 150 ms or 2 min",
            Kind::HelloInterval => "a time from 10 ms to 40 s, as 4 s",
            Kind::Number(least, greatest) => {
                return write!(f, "a number from {least} to {greatest}");
            }
            Kind::Text => "a text",
            Kind::Texts => "a list of texts",
            Kind::Tables => "tables, as [[node]] or [[link]]",
            Kind::Table => "a table, as [[node]] or [[link]]",
        })
    }
}

/// The keys of the file itself.
pub const FILE_KEYS: &str = "duration, seed, plan, expect, node, link";

/// The keys of a node.
pub const NODE_KEYS: &str = "name, router-id, prefixes, hello, restarts";

/// The keys of a link.
pub const LINK_KEYS: &str = "a, b, delay, loss, cost";

/// What the value at a key of the file is, if there is such a key.
pub(crate) fn kind_in_file(key: &str) -> Option<Kind> {
    match key {
        "duration" => Some(Kind::Time),
        "seed" => Some(Kind::Number(0, i64::MAX)),
        "plan" | "expect" => Some(Kind::Texts),
        "node" | "link" => Some(Kind::Tables),
        _ => None,
    }
}

/// What the value at a key of a node is, if there is such a key.
pub(crate) fn kind_in_node(key: &str) -> Option<Kind> {
    match key {
        "name" => Some(Kind::Name),
        "router-id" => Some(Kind::RouterId),
        "prefixes" => Some(Kind::Prefixes),
        "hello" => Some(Kind::HelloInterval),
        "restarts" => Some(Kind::Restarts),
        _ => None,
    }
}

/// What the value at a key of a link is, if there is such a key.
pub(crate) fn kind_in_link(key: &str) -> Option<Kind> {
    match key {
        "a" | "b" => Some(Kind::Name),
        "delay" => Some(Kind::Time),
        "loss" => Some(Kind::Number(0, 100)),
        "cost" => Some(Kind::Number(1, 65534)),
        _ => None,
    }
}
