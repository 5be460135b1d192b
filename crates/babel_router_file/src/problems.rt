//! The first fault of a file.

use crate::keys::{Kind, kind_in_device, kind_in_file};
use babel_config::FileFault;
use babel_text::{parse_network, parse_prefix, parse_router_id};
use babel_value::Addr;
use toml::{Table, Value};

/// What is wrong with a value.
#[derive(Clone, Copy)]
pub enum Cause<'a> {
    /// The table has no such key.
    UnknownKey,
    /// The value is of another kind.
    WrongKind(Kind),
    /// The number isn't in the range of its kind.
    OutOfRange(i64, Kind),
    /// The text can't be read.
    BadText(&'a str, Kind),
}

/// What is wrong with a file, and where.
#[derive(Clone, Copy)]
pub struct Problem<'a> {
    /// The device in whose table the key is.
    pub device: Option<&'a str>,
    /// The key.
    pub key: &'a str,
    /// The index in the list at the key.
    pub index: Option<usize>,
    /// What is wrong with it.
    pub cause: Cause<'a>,
}

impl<'a> Problem<'a> {
    fn at(key: &'a str, cause: Cause<'a>) -> Problem<'a> {
        Problem {
            device: None,
            key,
            index: None,
            cause,
        }
    }

    /// F2 or F3.
    pub(crate) fn fault(&self) -> FileFault {
        match self.cause {
            Cause::BadText(_, _) => FileFault::Text,
            _ => FileFault::Form,
        }
    }
}

/// The first problem, in the order of the keys.
pub fn first_problem(file: &Table) -> Option<Problem<'_>> {
    for (key, value) in file.iter() {
        let key = key.as_str();
        let problem = match kind_in_file(key) {
            None => Some(Problem::at(key, Cause::UnknownKey)),
            Some(Kind::Devices) => devices_problem(key, value),
            Some(Kind::Prefixes) => prefixes_problem(key, value),
            Some(kind) => value_problem(key, kind, value),
        };
        if problem.is_some() {
            return problem;
        }
    }
    None
}

fn devices_problem<'a>(key: &'a str, value: &'a Value) -> Option<Problem<'a>> {
    let Value::Table(devices) = value else {
        return Some(Problem::at(key, Cause::WrongKind(Kind::Devices)));
    };
    for (name, device) in devices.iter() {
        let name = name.as_str();
        if let Some(problem) = device_problem(name, device) {
            return Some(problem);
        }
    }
    None
}

fn device_problem<'a>(name: &'a str, value: &'a Value) -> Option<Problem<'a>> {
    let Value::Table(table) = value else {
        return Some(Problem::at(name, Cause::WrongKind(Kind::Device)));
    };
    for (key, value) in table.iter() {
        let key = key.as_str();
        let problem = match kind_in_device(key) {
            None => Some(Problem::at(key, Cause::UnknownKey)),
            Some(kind) => value_problem(key, kind, value),
        };
        if let Some(problem) = problem {
            return Some(Problem {
                device: Some(name),
                ..problem
            });
        }
    }
    None
}

fn prefixes_problem<'a>(key: &'a str, value: &'a Value) -> Option<Problem<'a>> {
    let Value::Array(items) = value else {
        return Some(Problem::at(key, Cause::WrongKind(Kind::Prefixes)));
    };
    for (index, item) in items.iter().enumerate() {
        if let Some(problem) = value_problem(key, Kind::Prefix, item) {
            return Some(Problem {
                index: Some(index),
                ..problem
            });
        }
    }
    None
}

fn value_problem<'a>(key: &'a str, kind: Kind, value: &'a Value) -> Option<Problem<'a>> {
    let cause = match (kind, value) {
        (Kind::TruthValue, Value::Boolean(_)) => return None,
        (Kind::Number(_, _), Value::Integer(number)) => number_cause(kind, *number)?,
        (Kind::RouterId | Kind::Prefix | Kind::Network, Value::String(text)) => {
            text_cause(kind, text.as_str())?
        }
        _ => Cause::WrongKind(kind),
    };
    Some(Problem::at(key, cause))
}

fn number_cause<'a>(kind: Kind, number: i64) -> Option<Cause<'a>> {
    match kind {
        Kind::Number(least, greatest)
            if i64::from(least) <= number && number <= i64::from(greatest) => { None }
        _ => Some(Cause::OutOfRange(number, kind)),
    }
}

fn text_cause(kind: Kind, text: &str) -> Option<Cause<'_>> {
    let is_readable = match kind {
        Kind::RouterId => parse_router_id(text).is_some(),
        Kind::Prefix => parse_prefix(text).is_some(),
        _ => matches!(parse_network(text), Some((Addr::V4(_), 0..=32))),
    };
    if is_readable {
        None
    } else {
        Some(Cause::BadText(text, kind))
    }
}
