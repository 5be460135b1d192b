//! The first fault of a file's tables.

use crate::file::keys::{Kind, kind_in_file, kind_in_link, kind_in_node};
use crate::{TopologyFault, parse_time};
use babel_text::{parse_prefix, parse_router_id};
use toml::{Table, Value};

/// The table that a key is in.
#[derive(Clone, Copy)]
pub enum Part {
    /// The file itself.
    File,
    /// The node of this number, from 0 on.
    Node(usize),
    /// The link of this number, from 0 on.
    Link(usize),
}

/// What is wrong with a key or its value.
#[derive(Clone, Copy)]
pub enum Cause<'a> {
    /// The table has no such key.
    UnknownKey,
    /// The table lacks this key.
    MissingKey,
    /// The value is of another kind.
    WrongKind(Kind),
    /// The number isn't in the range of its kind.
    OutOfRange(i64, Kind),
    /// The text can't be read.
    BadText(&'a str, Kind),
}

/// What is wrong with a file's tables, and where.
#[derive(Clone, Copy)]
pub struct Problem<'a> {
    /// The table in which the key is.
    pub part: Part,
    /// The key.
    pub key: &'a str,
    /// The index in the list at the key.
    pub index: Option<usize>,
    /// What is wrong with it.
    pub cause: Cause<'a>,
}

impl<'a> Problem<'a> {
    fn at(part: Part, key: &'a str, cause: Cause<'a>) -> Problem<'a> {
        Problem {
            part,
            key,
            index: None,
            cause,
        }
    }

    /// T2 or T3.
    pub(crate) fn fault(&self) -> TopologyFault {
        match self.cause {
            Cause::BadText(_, _) => TopologyFault::Text,
            _ => TopologyFault::Form,
        }
    }
}

/// The first problem, in the order of the keys. A key that a table lacks comes after those that it
/// has.
pub fn first_problem(file: &Table) -> Option<Problem<'_>> {
    for (key, value) in file.iter() {
        let key = key.as_str();
        let problem = match kind_in_file(key) {
            None => Some(Problem::at(Part::File, key, Cause::UnknownKey)),
            Some(Kind::Tables) => tables_problem(key, value),
            Some(kind) => kind_problem(Part::File, key, kind, value),
        };
        if problem.is_some() {
            return problem;
        }
    }
    missing_problem(Part::File, file)
}

/// The first key that the table lacks.
fn missing_problem(part: Part, table: &Table) -> Option<Problem<'static>> {
    let keys: &[&'static str] = match part {
        Part::File => &["duration", "node"],
        Part::Node(_) => &["name"],
        Part::Link(_) => &["a", "b"],
    };
    for key in keys {
        if table.get(*key).is_none() {
            return Some(Problem::at(part, *key, Cause::MissingKey));
        }
    }
    None
}

fn tables_problem<'a>(key: &'a str, value: &'a Value) -> Option<Problem<'a>> {
    let Value::Array(items) = value else {
        return Some(Problem::at(Part::File, key, Cause::WrongKind(Kind::Tables)));
    };
    for (number, item) in items.iter().enumerate() {
        let part = if key == "node" {
            Part::Node(number)
        } else {
            Part::Link(number)
        };
        if let Some(problem) = table_problem(part, key, item) {
            return Some(problem);
        }
    }
    None
}

fn table_problem<'a>(part: Part, list: &'a str, value: &'a Value) -> Option<Problem<'a>> {
    let Value::Table(table) = value else {
        return Some(Problem::at(part, list, Cause::WrongKind(Kind::Table)));
    };
    for (key, value) in table.iter() {
        let key = key.as_str();
        let problem = match kind_in(part, key) {
            None => Some(Problem::at(part, key, Cause::UnknownKey)),
            Some(kind) => kind_problem(part, key, kind, value),
        };
        if problem.is_some() {
            return problem;
        }
    }
    missing_problem(part, table)
}

fn kind_in(part: Part, key: &str) -> Option<Kind> {
    match part {
        Part::File => kind_in_file(key),
        Part::Node(_) => kind_in_node(key),
        Part::Link(_) => kind_in_link(key),
    }
}

fn kind_problem<'a>(part: Part, key: &'a str, kind: Kind, value: &'a Value) -> Option<Problem<'a>> {
    match kind {
        Kind::Prefixes => list_problem(part, key, (kind, Kind::Prefix), value),
        Kind::Texts => list_problem(part, key, (kind, Kind::Text), value),
        _ => value_problem(part, key, kind, value),
    }
}

/// The first problem of a list. The kinds are that of the list and that of its items.
fn list_problem<'a>(
    part: Part,
    key: &'a str,
    (list, item_kind): (Kind, Kind),
    value: &'a Value,
) -> Option<Problem<'a>> {
    let Value::Array(items) = value else {
        return Some(Problem::at(part, key, Cause::WrongKind(list)));
    };
    for (index, item) in items.iter().enumerate() {
        if let Some(problem) = value_problem(part, key, item_kind, item) {
            return Some(Problem {
                index: Some(index),
                ..problem
            });
        }
    }
    None
}

fn value_problem<'a>(
    part: Part,
    key: &'a str,
    kind: Kind,
    value: &'a Value,
) -> Option<Problem<'a>> {
    let cause = match (kind, value) {
        (Kind::Number(_, _), Value::Integer(number)) => number_cause(kind, *number)?,
        (Kind::Number(_, _), _) => Cause::WrongKind(kind),
        (_, Value::String(text)) => text_cause(kind, text.as_str())?,
        _ => Cause::WrongKind(kind),
    };
    Some(Problem::at(part, key, cause))
}

fn number_cause<'a>(kind: Kind, number: i64) -> Option<Cause<'a>> {
    match kind {
        Kind::Number(least, greatest) if least <= number && number <= greatest => None,
        _ => Some(Cause::OutOfRange(number, kind)),
    }
}

fn text_cause(kind: Kind, text: &str) -> Option<Cause<'_>> {
    let is_readable = match kind {
        Kind::RouterId => parse_router_id(text).is_some(),
        Kind::Prefix => parse_prefix(text).is_some(),
        Kind::Restarts => text == "saved" || text == "empty",
        Kind::Time => parse_time(text).is_some(),
        Kind::HelloInterval => matches!(parse_time(text), Some(1..=4000)),
        _ => true,
    };
    if is_readable {
        None
    } else {
        Some(Cause::BadText(text, kind))
    }
}
